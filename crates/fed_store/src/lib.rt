//! Layer 1, the outside: the files of the system.
//!
//! The trait stands in `fed_ports`, as the store in memory does, which tells what it holds. [`RealStore`] tells nothing: it reads files,
//! and keeps one in the place of the one that it read, on the disk, or leaves it as it is. `main` hands it to `run`.
#![tactic(auto)]

mod file_lock;
mod real_store;

pub use real_store::RealStore;
