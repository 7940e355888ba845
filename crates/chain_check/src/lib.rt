//! Layer 5, chains: trust chains of OpenID Federation 1.0 (section 10.2), each a list of signed texts from the leaf's
//! configuration up to the trust anchor's, that is valid for an anchor, its keys and a moment, or is refused with its
//! first failure.
//!
//! The crates above hand over texts as they were read or fetched. They take the leaf's metadata from the answer on a
//! valid chain, and tell the place and the reason of the answer on any other.
#![tactic(auto)]

mod checking;
mod holds_text;
mod judged;
mod judging;
mod known;
mod metadata;
mod names;
mod reading;
mod reason;
mod resolving;
mod screened;
mod screening;
mod signatures;
mod stop;
mod tried;
mod verdict;

pub use checking::check_chain;
pub use judged::Judged;
pub use judging::{judge, judge_candidate};
pub use reason::Reason;
pub use screened::Screened;
pub use screening::screen;
pub use tried::Tried;
pub use verdict::{Resolved, Verdict};
