//! Layer 7, the program: what `fed` does where its words ask for a command that reads, writes and ends.
//!
//! A command looks at the file that it names, is answered or performed on the input, and its reply is kept and written.
//! [`perform_command`] does all of it over any source, sink, store and clock, and carries what is proved of it. The crates above take files
//! and the input by [`load_file`] and [`read_text`], the keys of a file by [`read_keys`], write a verdict on a chain by [`verdict_lines`]
//! and the parts of another's by the calls `append_..`, and hand over what a person is to read by [`hand_notes`].
#![tactic(auto)]

mod answer;
mod check;
mod check_lines;
mod operation;
mod output;
mod top;
mod verify;
mod verify_finding;

pub use answer::{Stop, load_file, read_text};
pub use check::read_keys;
pub use check_lines::{append_number, append_reason, append_tree, verdict_lines};
pub use output::hand_notes;
pub use top::{perform_command, stopped};
