// Calls on the cache, each told in the trace.

ghost use Rattle.std.specs.Prelude.{◌≡◌, IfErr, OnErr, OnOk};
ghost use Rattle.turn_log.specs.Groups.{known};
ghost use Rattle.statement_shelf.specs.Passes.{IsPassOfAll};
ghost use Rattle.resolve_round.specs.Acts.{Continues, IsHalt, IsKept, IsRecorded, IsWorkCall};

use crate::halt::Halt;
use crate::trace::Event;
use fed_base::{Duplicate, Seq};
use statement_shelf::{BookCall, BookReply, Commons, FedPass, ShelfCall};
use std::alloc::Global;
use std::sync::Wait;

// Makes a call on the cache, and adds it to the events with its reply. The room is taken before the call.
pub(crate) fn record_call<R: Wait>(
    commons: &Commons,
    rt: &R,
    alloc: Global,
    pass: &mut FedPass,
    events: &mut Seq<Event>,
    call: ShelfCall,
) -> Result<(), Halt>
    requires of { IsPassOfAll commons.now pass.old }
    requires work { IsWorkCall call }
    ensures kept { IsKept commons.now pass.old pass.new }
    ensures continues { Continues events.old events.new (known pass.old) (known pass.new) }
    ensures ok { OnOk result (IsRecorded events.old call events.new) }
    ensures err { OnErr result (events.new ≡ events.old) }
    ensures halt { IfErr result (IsHalt (known pass.new)) }
{
    let told = call.copy(alloc)?;
    let at = events.len();
    events.push(Event::Book(BookCall::Epoch, BookReply::Memory))?;
    match commons.shelf(rt, alloc, pass, call) {
        Ok(reply) => {
            commons.is_history(pass);
            events.set(at, Event::Shelf(told, reply));
            Ok(())
        }
        Err(worn) => {
            events.pop();
            Err(Halt::Worn(worn.count))
        }
    }
}
