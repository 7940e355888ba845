// Checks of signatures that other implementations made, and of copies of them.

ghost use Rattle.std.specs.Prelude.{◌≡◌, ◌↔◌, ◌<◌, ℕ, List, IsTrue, false, length, slice_index, slice_index_or};
ghost use Rattle.slh_dsa.specs.Verifying.{Verifies};
ghost use Rattle.rows_signature.specs.Copies.{turned, place_of_copy};

use crate::reading::{algorithm, next, number, value};
use fed_base::{Alg, OpensLedgers, Plain, Steps};
use slh_dsa::verify;
use std::alloc::Global;
use std::fs;
use std::rt::Files;

/// Whether a signature of a message verifies under a public key of an algorithm.
pub(crate) fn is_valid<R: OpensLedgers>(
    rt: &R,
    alg: Alg,
    public: &[u8; 32],
    message: &[u8],
    signature: &[u8],
) -> bool
    ensures { IsTrue result ↔ Verifies alg public.now message.now signature.now }
{
    let mut steps = Steps {
        ledger: Plain::new(rt),
    };
    verify(alg, public, message, signature, &mut steps)
}

// Whether the copy of a signature verifies that has the low bit of a byte turned.
fn is_copy_valid<R: OpensLedgers>(
    rt: &R,
    alg: Alg,
    public: &[u8; 32],
    message: &[u8],
    signature: &mut [u8],
    at: usize,
) -> bool
    requires { at < length signature.old }
    ensures value { IsTrue result ↔ Verifies alg public.now message.now (turned signature.old at) }
    ensures same { signature.new ≡ signature.old }
{
    let kept = signature[at];
    signature[at] = kept ^ 1;
    let valid = is_valid(rt, alg, public, message, signature);
    signature[at] = kept;
    valid
}

// Which of eight copies of a signature verify, with the low bit of a byte turned: of the first byte, and of seven more at equal distances.
fn copies_valid<R: OpensLedgers>(
    rt: &R,
    alg: Alg,
    public: &[u8; 32],
    message: &[u8],
    signature: &mut [u8],
) -> [bool; 8]
    requires { 0 < length signature.old }
    ensures each { (n : ℕ) → n < 8 → IsTrue (slice_index_or result n false)
        ↔ Verifies alg public.now message.now (turned signature.old (place_of_copy n (length signature.old))) }
    ensures same { signature.new ≡ signature.old }
{
    let mut valid = [false; 8];
    'copies: for n in 0..8usize {
        let at = signature.len() / 8 * n;
        valid[n] = is_copy_valid(rt, alg, public, message, signature, at);
    }
    valid
}

/// `ALGORITHM PUBLIC MESSAGE FILE LENGTH`: whether the signature verifies that is the file's first bytes, with a zero byte behind
/// them where the file has one fewer, and how many of its copies.
pub(crate) fn check<R: Files + AllocGlobal + OpensLedgers>(rt: &R, given: &str) -> Option<String> {
    let alloc = rt.alloc();
    let (alg, rest) = algorithm(given)?;
    let (public, rest) = value(rest)?;
    let (message, rest) = next(rest);
    let (file, rest) = next(rest);
    let (length, _) = number(rest)?;
    let message = hex::decode(alloc, message).ok()?;
    let told = check_file(rt, alg, &public, message.as_slice(), file, length);
    drop(message);
    told
}

fn check_file<R: Files + AllocGlobal + OpensLedgers>(
    rt: &R,
    alg: Alg,
    public: &[u8; 32],
    message: &[u8],
    file: &str,
    length: u64,
) -> Option<String> {
    let mut signature = fs::read(rt, file).ok()?;
    signature.push(0).ok()?;
    let told = check_bytes(
        rt,
        rt.alloc(),
        alg,
        public,
        message,
        signature.as_mut_slice(),
        length,
    );
    drop(signature);
    told
}

fn check_bytes<R: OpensLedgers>(
    rt: &R,
    alloc: Global,
    alg: Alg,
    public: &[u8; 32],
    message: &[u8],
    bytes: &mut [u8],
    length: u64,
) -> Option<String> {
    if length as usize > bytes.len() {
        return None;
    }
    let signature = &mut bytes[..length as usize];
    let valid = is_valid(rt, alg, public, message, signature);
    if signature.is_empty() {
        return format!(in alloc; "valid {valid}, no copies").ok();
    }
    let copies = copies_valid(rt, alg, public, message, signature);
    let count = copies.iter().filter(|valid| **valid).count();
    format!(in alloc;
        "valid {valid}, with a bit turned {count} of {}",
        copies.len()
    )
    .ok()
}
