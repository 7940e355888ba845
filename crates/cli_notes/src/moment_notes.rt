// Moments among the words that look wrong.

use cli_words::{Act, Command};
use plain_notes::{Notes, warn_of_moment};
use std::alloc::Global;

/// Says which moments of the command look like milliseconds.
pub(crate) fn warn_of_moments(alloc: Global, command: &Command, notes: &mut Notes) {
    match command {
        Command::Keygen { at, exp, .. }
        | Command::Rotate {
            act: Act::Add { at, exp, .. },
            ..
        } => {
            warn_of_moment(alloc, b"--at", at.seconds(), notes);
            warn_of_moment(alloc, b"--exp", exp.seconds(), notes);
        }
        Command::Rotate {
            act: Act::Revoke { at, .. },
            ..
        }
        | Command::Check { at: Some(at), .. } => {
            warn_of_moment(alloc, b"--at", at.seconds(), notes);
        }
        _ => {},
    }
}
