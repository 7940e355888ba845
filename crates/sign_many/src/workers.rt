// Workers as a signer of texts.

ghost use Rattle.std.specs.Thread.{IsSync};

use crate::gate::OpenGate;
use crate::signing::sign_many;
use sealed::Signs;
use slh_dsa::{KeyPair, params_of};
use std::thread::Threads;

/// Workers who make one signature together: what `sealed::seal_signed` asks for a signature.
#[derive(Drop)]
pub struct Workers<'a, R: Threads + Sync> {
    /// What starts their threads.
    pub rt: &'a R,
    /// How many they are, taken as 1 where it is 0 and as 16 where it is more.
    pub count: u64,
}

impl<R: Threads + Sync> Signs for Workers<'_, R> {
    ghost ready = { λ _. IsSync R.row };

    fn sign(&self, keys: &KeyPair, message: &[u8], signature: &mut [u8]) {
        sign_many(
            self.rt,
            &params_of(keys.alg()),
            &keys.secret(),
            message,
            self.count.clamp(1, 16),
            &OpenGate,
            signature,
        );
    }
}
