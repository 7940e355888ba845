// Rehearsing: the summary, and the status.

ghost use Rattle.std.specs.Prelude.{◌≡◌, None};
ghost use Rattle.fed.specs.Ports.{written_to};
ghost use Rattle.fed.specs.Rehearsals.{IsSummaryTold, IsRehearsedAs};
ghost use Rattle.fed.specs.Resolving.{HoldsBy};

use cli_inspect::write_line;
use fed_ports::{OpensLedgers, Sink};
use plain_notes::{Notes, explain_memory, explain_worn};
use rehearsal::{RehearsalFault, Summary};
use statement_shelf::FedPass;
use std::alloc::Global;
use std::sync::Wait;
use std::thread::Threads;

/// Resolves the leaf of a federation in memory twice, whose metadata has so many parameters, and gives the exit status.
pub(crate) fn rehearse<R: Wait + Threads + OpensLedgers + Sync, K: Sink>(
    rt: &R,
    alloc: Global,
    params: u64,
    out: &mut K,
    worn: &mut Option<FedPass>,
    notes: &mut Notes,
) -> u8
    requires { worn.old ≡ None }
    ensures runs { IsRehearsedAs params (written_to K.Sink out.old) (written_to K.Sink out.new) result }
    ensures worn { HoldsBy worn.new result }
{
    match rehearsal::rehearse(rt, alloc, params, worn) {
        Ok(summary) => tell(alloc, summary, out, notes),
        Err(RehearsalFault::Worn) => {
            explain_worn(alloc, notes);
            8
        }
        Err(RehearsalFault::Memory) => {
            explain_memory(alloc, notes);
            5
        }
    }
}

// Writes the summary.
fn tell<K: Sink>(alloc: Global, summary: Summary, out: &mut K, notes: &mut Notes) -> u8
    ensures { IsSummaryTold summary (written_to K.Sink out.old) (written_to K.Sink out.new) result }
{
    match summary.lines(alloc) {
        Ok(lines) => write_line(alloc, 0, lines.as_slice(), out, notes),
        Err(_) => {
            explain_memory(alloc, notes);
            5
        }
    }
}
