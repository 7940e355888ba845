//! Layer 3, signatures: signed texts of OpenID Federation 1.0 with the key under which they verify (RFC 7515 section 5.2).
//!
//! A [`Sealed`] is made by a test of a signature, or where its signature is known to verify, so that to hold one is to
//! know that its text verifies. The crates above test pairs of a text and a key, look whether a text is sealed by a key
//! of a set, keep what was tested, and seal claims of their own.
#![tactic(auto)]

mod fault;
mod pairs;
mod sealing;
mod signs;
mod tested;
mod testing;

pub use fault::SealFault;
pub use pairs::{Sealed, Unsealed};
pub use sealing::{seal, seal_payload, seal_signed};
pub use signs::{Alone, Signs};
pub use tested::Tested;
pub use testing::{check_sealed, is_sealed, test_key};
