//! Layer 7, the program: what a person reads of the words of a command line.
//!
//! [`explain_command`] tells why words give no command, or which moments of a command look wrong, from `cli_help::USAGES`, the one table of
//! the commands and their options. [`page_meant`] gives the page for which such words ask all the same, as `check --help` does.
//! [`explain_waiting`] tells what a command reads where standard input is a terminal.
#![tactic(auto)]

mod foreign;
mod moment_notes;
mod pages;
mod strays;
mod values;
mod verify_words;
mod waiting;
mod words;

pub use pages::page_meant;
pub use waiting::explain_waiting;
pub use words::explain_command;
