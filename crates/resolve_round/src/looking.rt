// Texts that the cache tells.

ghost use Rattle.std.specs.Prelude.{◌≡◌, IfErr, IfOk};
ghost use Rattle.resolve_round.specs.Calls.{HasPass, UsesCache};
ghost use Rattle.resolve_round.specs.Looking.{CanTell, HasLooked, HasTriedLook, TellsReply};
ghost use Rattle.resolve_round.specs.declared.halt.Halt.TheVariants.{Memory};

use crate::acts::record_call;
use crate::call::Call;
use crate::halt::Halt;
use crate::trace::Event;
use fed_base::{Duplicate, Ledger, Text};
use statement_shelf::{Proven, ShelfCall, ShelfReply};
use std::alloc::Global;
use std::sync::Wait;

// Looks for the text of a URL in the cache, and copies what is told.
pub(crate) fn look<R: Wait, G: Ledger>(
    call: &mut Call<'_, R, G>,
    url: &Text,
) -> Result<Option<Proven>, Halt>
    requires of { HasPass call.old }
    ensures uses { UsesCache call.old call.new result }
    ensures looked { IfOk result (HasLooked call.old.trace.now.events url.now call.old.trace.now.moment call.new.trace.now.events) }
    ensures tried { HasTriedLook call.old.trace.now.events url.now call.old.trace.now.moment call.new.trace.now.events }
{
    let looking = ShelfCall::Look {
        url: url.copy(call.alloc)?,
        moment: call.trace.moment,
    };
    let at = call.trace.events.len();
    record_call(
        call.commons,
        call.rt,
        call.alloc,
        call.pass,
        &mut call.trace.events,
        looking,
    )?;
    told_by(call.alloc, &call.trace.events.as_slice()[at])
}

// What the reply to a Look tells.
fn told_by(alloc: Global, event: &Event) -> Result<Option<Proven>, Halt>
    requires { CanTell event.now }
    ensures tells { IfOk result (TellsReply event.now) }
    ensures halt { IfErr result (λ halt. halt ≡ Memory) }
{
    match event {
        Event::Shelf(_, ShelfReply::Hit(proven)) => Ok(Some(proven.copy(alloc)?)),
        Event::Shelf(_, ShelfReply::Miss) => Ok(None),
        Event::Shelf(_, ShelfReply::Memory) => Err(Halt::Memory),
        _ => unreachable!(),
    }
}
