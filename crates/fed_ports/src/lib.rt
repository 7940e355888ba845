//! Layer 1, the outside: what `fed` reads from and writes to.
//!
//! Everything that the program reads or writes goes through a trait of this crate: bytes come from a [`Source`] and go to a [`Sink`],
//! files are in a [`Store`], and a [`Clock`] gives the moment. A [`Network`] connects to others and accepts their connections, each of
//! which is a [`Peer`], and a [`Link`] gives the pages of URLs. Each trait states what a call does to the bytes where the object tells
//! them, and that an answer `Failed` comes only where the object's own count of faults rose. The versions in memory tell what they hold;
//! the real ones are a few lines over the standard library and tell nothing. Those of the network stand in `fed_net`, and that of files in
//! `fed_store`.
//!
//! The texts, lists, errors and ledgers of the base are given again here under their names.
#![tactic(auto)]

mod address;
mod clock;
mod input;
mod kept_file;
mod link;
mod memory_clock;
mod memory_sink;
mod memory_source;
mod memory_store;
mod named_file;
mod network;
mod page;
mod peer;
mod real;
mod real_clock;
mod sink;
mod source;
mod store;

pub use address::{Address, listen_address};
pub use clock::Clock;
pub use fed_base::{
    Alg, CallPlan, Duplicate, Failed, Ledger, MOMENT_LIMIT, Memory, OpensLedgers, Plain, Seq,
    Steps, Text,
};
pub use input::{ReadEnd, read_all};
pub use link::{Link, LinkFault};
pub use memory_clock::MemoryClock;
pub use memory_sink::MemorySink;
pub use memory_source::MemorySource;
pub use memory_store::MemoryStore;
pub use named_file::NamedFile;
pub use network::Network;
pub use page::Page;
pub use peer::Peer;
pub use real::{RealSink, RealSource};
pub use real_clock::RealClock;
pub use sink::{Sink, write_all};
pub use source::Source;
pub use store::{FILE_LIMIT, Store, StoreFault};
