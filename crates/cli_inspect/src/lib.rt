//! Layer 7, the program: the commands that show something and change nothing, over any source, sink, store and clock.
//!
//! [`inspect`] does what an inspection asks for: it shows the public keys of a ring file, what a signed text, a chain or a key set says,
//! the node of a configuration file, whether a resolver's reply can be acted on, or how a command is called. `fed` calls it, and no file
//! is changed.
#![tactic(auto)]

mod checked_reply;
mod checking;
mod config;
mod inspecting;
mod lines;
mod output;
mod public;
mod replies;
mod reply_notes;
mod reporting;
mod rings;
mod shown;

pub use inspecting::inspect;
pub use output::write_line;
pub use public::public_set;
