//! Layer 1, the outside: how long the exchanges of one network take in all.
//!
//! [`FetchTime`] has the time of a network's exchanges over the system's clock: what all of them may take together, what is gone of it, and
//! what is left for the one that is open. [`fetch_seconds`] reads how much that is. `fed_net` keeps to it.
#![tactic(auto)]

mod time;

pub use time::{FETCH_SECONDS, FetchTime, fetch_seconds, left};
