// Who makes the signature of a text.

ghost use Rattle.std.specs.Prelude.{◌≡◌, length};
ghost use Rattle.slh_dsa.specs.Algorithms.{set_of};
ghost use Rattle.slh_dsa.specs.Verifying.{Verifies, signature_bytes};
ghost use Rattle.sealed.specs.Sealing.{signature_by, signer_key};

use slh_dsa::{KeyPair, sign};

/// Makes signatures: [`Alone`], or the workers of a crate above.
pub trait Signs {
    /// What has to hold for it to sign.
    ghost ready: { Self → Type 0 };

    /// Writes the signature of a message, as many bytes as `signature_bytes` gives for the key's algorithm (FIPS 205 section 10.2.1,
    /// without fresh random bytes and with an empty context).
    fn sign(&self, keys: &KeyPair, message: &[u8], signature: &mut [u8])
        requires ready { ready self.now }
        requires room { length signature.old ≡ signature_bytes (set_of keys.now.alg) }
        ensures written { signature.new ≡ signature_by keys.now message.now }
        ensures verifies { Verifies keys.now.alg (signer_key keys.now) message.now signature.new };
}

/// The thread that asks, which makes the signature by itself.
#[derive(Drop)]
pub struct Alone;

impl Signs for Alone {
    ghost ready = { λ _. Unit {0} };

    fn sign(&self, keys: &KeyPair, message: &[u8], signature: &mut [u8]) {
        sign(keys, message, signature);
    }
}
