//! Layer 7, the program: what it says of itself: a page of help for all commands, one for each, and the version.
//!
//! [`Verb`] is a word that names a command, and [`Verb::page`] the command's page: how it is called, its words, its input, what it writes,
//! its statuses, and an example. [`VERBS`] has all of them: `cli_words` reads the first word of a command line by it, and the word of `help
//! COMMAND`. [`HELP`] is the one page of `--help`, and [`USAGES`] the one table of the commands and their options, by which `cli_notes`
//! tells a person why words give no command.
#![tactic(auto)]

mod answer_pages;
mod key_pages;
mod node_pages;
mod overview;
mod usages;
mod verb;

pub use overview::{HELP, VERSION};
pub use usages::{Form, OptionName, USAGES, Usage};
pub use verb::{VERBS, Verb};
