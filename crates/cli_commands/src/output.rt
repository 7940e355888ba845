// The program's output.

ghost use Rattle.cli_commands.specs.Noted.{HandsNotes};

use fed_ports::{Sink, write_all};
use plain_notes::Notes;

/// Hands over what a person is to read. Where that fails, nothing else changes.
pub fn hand_notes<W: Sink>(said: &mut W, notes: &Notes)
    ensures { HandsNotes (W.held said.old) (W.held said.new) }
{
    let _ = write_all(said, notes.text());
}
