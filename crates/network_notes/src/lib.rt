//! Layer 1, the outside: why calls of the system's network failed, and what a person reads of it.
//!
//! [`Failures`] keeps the first failures of a network: at which [`Address`](fed_ports::Address), and the system's [`Reason`].
//! [`explain_failures`] says them in [`Notes`](plain_notes::Notes). `fed_net` keeps those of the real network, and the program says them at
//! its end. No clause promises a sentence.
#![tactic(auto)]

mod failures;
mod sentences;

pub use failures::{Failure, Failures, Reason};
pub use sentences::explain_failures;
