//! Layer 7, program: what a person reads where an entity wasn't resolved.
//!
//! The trace of a call tells which pages its last round got. [`explain_outcome`] says of each page that isn't good why, and what failed on
//! a path up to the trust anchor. No clause promises a sentence.
#![tactic(auto)]

mod configurations;
mod explain;
mod pages;
mod path;
mod reading;

pub use explain::explain_outcome;
