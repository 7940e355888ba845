//! Layer 7, the program: what a person reads of claims, key sets and signed texts that aren't of their form.
//!
//! The calls `explain_..` find the fault again in what their caller has at hand, and say it in [`Notes`](plain_notes::Notes);
//! [`warn_of_statement`] says what looks wrong in claims that are accepted. None of them can fail: where memory is wanting, less is said.
//! `file_notes` says by them what is wrong with files and with standard input, and `chain_notes` what is wrong with the texts of a chain.
#![tactic(auto)]

mod claims;
mod keys;
mod texts;
mod warnings;

pub use claims::{explain_claims, kind_of};
pub use keys::explain_key_set;
pub use texts::{explain_text, explain_verify};
pub use warnings::warn_of_statement;
