// Rows of `sign_many`.

use crate::reading::{Hex, algorithm, bytes, number, short, value};
use fed_base::Alg;
use sign_many::{Gate, OpenGate, sign_many};
use slh_dsa::{MOST_SIGNATURE_BYTES, params_of, signature_bytes};
use std::alloc::Global;
use std::hint::spin_loop;
use std::sync::atomic::{AtomicU64, Ordering};
use std::thread::Threads;

// How often at most the first job looks whether a second one has begun.
const TURNS: u64 = 1_000_000_000;

// A gate that holds the first job until a second one has entered.
#[derive(Drop)]
struct Meeting {
    // The jobs that entered: a bit for each.
    entered: AtomicU64,
    // 1 once the first saw a second one.
    met: AtomicU64,
}

impl Gate for Meeting {
    fn enter(&self, job: u64) {
        let own = 1 << (job % 64);
        if self.entered.fetch_add(own, Ordering::SeqCst) != 0 {
            return;
        }
        for _ in 0..TURNS {
            if self.entered.load(Ordering::SeqCst) != own {
                self.met.store(1, Ordering::SeqCst);
                return;
            }
            spin_loop();
        }
    }
}

// A row's parts: the algorithm, the workers, the private key and the message.
#[derive(Drop)]
struct Given {
    alg: Alg,
    workers: u64,
    secret: [u8; 64],
    message: Vec<u8>,
}

fn read(alloc: Global, given: &str) -> Option<Given> {
    let (alg, rest) = algorithm(given)?;
    let (workers, rest) = number(rest)?;
    let (secret, rest) = value(rest)?;
    let message = bytes(alloc, rest)?;
    Some(Given {
        alg,
        workers,
        secret,
        message,
    })
}

// The signature, by T of its bytes.
fn signed<R: Threads + Sync, G: Gate + Sync>(rt: &R, given: &Given, gate: &G) -> [u8; 16] {
    let mut buffer = [0u8; MOST_SIGNATURE_BYTES];
    let signature = &mut buffer[..signature_bytes(given.alg)];
    sign_many(
        rt,
        &params_of(given.alg),
        &given.secret,
        given.message.as_slice(),
        given.workers.clamp(1, 16),
        gate,
        signature,
    );
    short(signature)
}

/// `ALGORITHM WORKERS SECRET MESSAGE`: the signature.
pub(crate) fn many<R: Threads + Sync>(rt: &R, alloc: Global, given: &str) -> Option<String> {
    let given = read(alloc, given)?;
    format!(in alloc; "{}", Hex(&signed(rt, &given, &OpenGate))).ok()
}

/// The same, with a gate that holds the first job until a second one has entered, for at most 1,000,000,000 turns: whether they met, and
/// the jobs that entered, a bit for each.
pub(crate) fn layers_meet<R: Threads + Sync>(rt: &R, alloc: Global, given: &str) -> Option<String> {
    let given = read(alloc, given)?;
    let gate = Meeting {
        entered: AtomicU64::new(0),
        met: AtomicU64::new(0),
    };
    let signature = signed(rt, &given, &gate);
    let met = gate.met.load(Ordering::SeqCst) == 1;
    let entered = gate.entered.load(Ordering::SeqCst);
    format!(in alloc; "{} met {met} jobs {entered:x}", Hex(&signature)).ok()
}
