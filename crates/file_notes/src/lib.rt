//! Layer 7, the program: what a person reads of files, of standard input and of changes of a ring that are refused, and of what looks wrong
//! in what is accepted.
//!
//! The calls `explain_..` find the cause of an answer again in what their caller has at hand, and say it in [`Notes`]; the calls `warn_..`
//! say what looks wrong in what was accepted. None of them can fail: where memory is wanting, less is said. The crate above calls them
//! beside its answers, which they don't change.
//!
//! Of a ring's file and of seeds they are handed what `ring_faults` found, which holds none, and of a ring the terms of its keys.
#![tactic(auto)]

mod changes;
mod files;
mod inputs;
mod marks;
mod ring_files;
mod texts;
mod warnings;

pub use changes::explain_change;
pub use files::{
    explain_absent_file, explain_existing_file, explain_keys_file, explain_keys_input,
    explain_long_file, explain_ring_file,
};
pub use inputs::{
    explain_length, explain_long_input, explain_no_list, explain_numbers, explain_order,
    explain_seeds, explain_unless_list, explain_unless_object, warn_of_key_end, warn_of_seeds,
};
pub use marks::explain_mark_claims;
pub use ring_files::{explain_migration, warn_of_ended_signer};
pub use statement_notes::{explain_claims, explain_verify, warn_of_statement};
pub use texts::{explain_other_claims, explain_refused_text};
pub use warnings::warn_of_claims;
