//! Layer 6, service: bodies in chunks (RFC 9112 section 7.1), read in whatever pieces their bytes come.
//!
//! A client gives what comes to a [`ChunkReader`] until it is over or the bytes end, and then takes what the body is: a [`Chunked`].
#![tactic(auto)]

mod laws;
mod place;
mod reader;

pub use laws::one_answer;
pub use reader::{ChunkReader, Chunked};
