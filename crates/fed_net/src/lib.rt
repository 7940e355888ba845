//! Layer 1, the outside: networks, peers and links, in memory and over TCP.
//!
//! The traits stand in `fed_ports`. [`MemoryNetwork`] tells its exchanges and its callers, each of which is a [`MemoryPeer`], and
//! [`MemoryLink`] tells its web. [`RealNetwork`] and [`RealPeer`] are the system's TCP (RFC 9293): they tell nothing, and each of their
//! calls ends within the time that the crate's page gives for it.
#![tactic(auto)]

mod memory_connection;
mod memory_connections;
mod memory_link;
mod memory_network;
mod memory_peer;
mod named_page;
mod real_callers;
mod real_network;
mod real_peer;
mod timed;

pub use fetch_time::{FETCH_SECONDS, fetch_seconds};
pub use memory_link::MemoryLink;
pub use memory_network::MemoryNetwork;
pub use memory_peer::MemoryPeer;
pub use named_page::NamedPage;
pub use real_network::{RealNetwork, handed_over};
pub use real_peer::RealPeer;
pub use waiting_callers::Log;
