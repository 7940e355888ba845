//! Layer 1, the outside: notes, what a person reads beside an answer.
//!
//! [`Notes`] are lines of plain text, each a [`Sentence`] that begins with `fed: `. The calls `explain_..` say what the outside did. The
//! crates above add what is said of command lines, files, inputs and chains. What is shown on standard output has its values from here too:
//! [`string`] writes a text so that no terminal acts on it, and [`append_moment`] a moment with its date.
#![tactic(auto)]

mod dated;
mod likeness;
mod moments;
mod notes;
mod outside;
mod sentence;
mod strings;

pub use dated::append_moment;
pub use likeness::is_like;
pub use moments::warn_of_moment;
pub use notes::Notes;
pub use outside::{
    explain_memory, explain_sink, explain_source, explain_unkept_file, explain_unread_file,
    explain_worn,
};
pub use sentence::Sentence;
pub use strings::{append_string, string};
