//! Layer 7, the program: what a person reads of a node's configuration.
//!
//! [`say_warnings`] says what `config_warnings` lists, one sentence a warning: its place in the file, and the name that was likely meant.
#![tactic(auto)]

mod names;
mod sentences;

pub use sentences::say_warnings;
