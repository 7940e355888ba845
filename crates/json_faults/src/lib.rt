//! Layer 7, the program: where a text isn't JSON, and what a person reads of it.
//!
//! [`explain_no_json`] says at which line and column of a text that isn't read something else was expected than what stands there (RFC
//! 8259), or what the whole file is: empty, UTF-16, a signed text, or one with a byte order mark. No clause promises a sentence.
#![tactic(auto)]

mod escapes;
mod no_json;
mod numbers;
mod scan;

pub use no_json::explain_no_json;
