//! Layer 2, texts: sets of public keys (RFC 7517), as OpenID Federation 1.0 carries them in `jwks`.
//!
//! A key of the algorithms SLH-DSA-SHA2-128s and SLH-DSA-SHA2-128f is taken apart; a key of any other is kept as it was
//! read, and verifies nothing. The crates above read sets from statements, find the key that a signed text names, and name their own keys
//! by [`thumbprint`] (RFC 7638).
#![tactic(auto)]

mod fault;
mod jwk;
mod keys;
mod set;
mod thumbprints;

pub use fault::SetFault;
pub use jwk::{Jwk, write_key};
pub use set::JwkSet;
pub use thumbprints::thumbprint;
