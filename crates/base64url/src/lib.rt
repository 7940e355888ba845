//! Layer 2, texts: base64url without padding (RFC 4648 section 5, RFC 7515 section 2), canonical in both directions: each list of bytes
//! has one text, and no other text decodes to it.
//!
//! The parts of signed texts, public keys and thumbprints are written and read in this form.
#![tactic(auto)]

mod coding;

pub use coding::{decode, decode_32, encode, encode_32};
