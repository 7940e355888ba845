//! Layer 7, the program: what is wrong with a ring's file, or with the seeds of a key, by kind and place.
//!
//! The file and the input hold seeds, and what is found of them doesn't: a [`FileFault`] and a [`SeedsFault`] are kinds, places and counts.
//! The crates that make sentences are handed these and the terms of keys, which are given again here, and stand on nothing that opens a
//! ring.
#![tactic(auto)]

mod bytes;
mod file_fault;
mod finding;
mod key_fault;
mod seeds;

pub use bytes::{TextFault, text_fault};
pub use file_fault::FileFault;
pub use finding::{is_old_ring, ring_fault};
pub use key_fault::KeyFault;
pub use key_ring::{KeyState, KeyTerm, OrderFault, RevokeReason, RingFault, moment_at};
pub use seeds::{SeedsFault, is_one_byte, seeds_fault};
