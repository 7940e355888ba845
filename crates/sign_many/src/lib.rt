//! Layer 3, signatures: one signature of SLH-DSA-SHA2-128s or SLH-DSA-SHA2-128f by several workers (FIPS 205 Algorithms 19 and 22).
//!
//! What a layer of the hypertree signs is the root of the tree below, which is a node of that tree and needs no signature. So FORS and
//! the trees of the layers are jobs that are done apart, each in its own part of the signature; then the one-time signatures are
//! written, which are few hashes. The bytes are those of `slh_dsa::sign`. Nothing here takes memory, and nothing refuses.
//! A text is sealed so by [`Workers`] and `sealed::seal_signed`.
#![tactic(auto)]

mod gate;
mod jobs;
mod signing;
mod work;
mod workers;

pub use gate::{Gate, OpenGate};
pub use signing::sign_many;
pub use workers::Workers;
