// A text that is written, and the status.

ghost use Rattle.cli_inspect.specs.Outputs.{WritesLine};

use fed_ports::{Sink, write_all};
use plain_notes::{Notes, explain_sink};
use std::alloc::Global;

/// Writes the text, and gives this status, or 4 where the sink failed.
pub fn write_line<K: Sink>(
    alloc: Global,
    status: u8,
    line: &[u8],
    out: &mut K,
    notes: &mut Notes,
) -> u8
    ensures { WritesLine status line.now (K.held out.old) (K.held out.new) (K.write_faults out.old) (K.write_faults out.new) result }
{
    match write_all(out, line) {
        Ok(()) => status,
        Err(_) => {
            explain_sink(alloc, notes);
            4
        }
    }
}
