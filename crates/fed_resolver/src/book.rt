// The one reading of the book.

ghost use Rattle.std.specs.Prelude.{◌≡◌, [], List, IfErr, OnErr, OnOk};
ghost use Rattle.turn_log.specs.Groups.{known};
ghost use Rattle.resolve_round.specs.Acts.{GainsEvents, IsHalt, IsKept};
ghost use Rattle.statement_shelf.specs.Passes.{IsPassOfAll};
ghost use Rattle.statement_shelf.specs.declared.calls.AnchorKeys.{AnchorKeys};
ghost use Rattle.fed_resolver.specs.Going.{CanTakeKeys, HasRead, TakesKeys};
ghost use Rattle.fed_resolver.specs.Calls.{IsFresh};

use crate::outcome::Refusal;
use entity_id::EntityId;
use fed_base::{Duplicate, Memory};
use resolve_round::{Event, Trace};
use resolve_search::Halt;
use statement_shelf::{BookCall, BookReply, Commons, FedPass};
use std::alloc::Global;
use std::sync::Wait;

// Reads the anchor's keys, as the first event. The room is taken before the call.
pub(crate) fn read_book<R: Wait>(
    commons: &Commons,
    rt: &R,
    alloc: Global,
    pass: &mut FedPass,
    trace: &mut Trace,
    anchor: &EntityId,
) -> Result<(), Halt>
    requires of { IsPassOfAll commons.now pass.old }
    requires none { trace.old.events ≡ [] }
    ensures kept { IsKept commons.now pass.old pass.new }
    ensures gains { GainsEvents (known pass.old) (known pass.new) trace.new.events }
    ensures fresh { (anchors : List AnchorKeys) → IsFresh anchors (known pass.old) trace.new }
    ensures read { OnOk result (HasRead anchor.now trace.old trace.new) }
    ensures unread { OnErr result (trace.new ≡ trace.old) }
    ensures halt { IfErr result (IsHalt (known pass.new)) }
{
    let asked = anchor.copy(alloc)?;
    let told = anchor.copy(alloc)?;
    let at = trace.events.len();
    trace
        .events
        .push(Event::Book(BookCall::Epoch, BookReply::Memory))?;
    match commons.book(rt, alloc, pass, BookCall::Read { anchor: asked }) {
        Ok(reply) => {
            commons.is_history(pass);
            let event = Event::Book(BookCall::Read { anchor: told }, reply);
            trace.events.set(at, event);
            Ok(())
        }
        Err(worn) => {
            trace.events.pop();
            Err(Halt::Worn(worn.count))
        }
    }
}

// Takes the epoch and the keys that the book replied.
pub(crate) fn take_keys(alloc: Global, trace: &mut Trace) -> Result<(), Refusal>
    requires { CanTakeKeys trace.old }
    ensures { TakesKeys trace.old trace.new result }
{
    let Event::Book(_, reply) = &trace.events.as_slice()[0] else {
        unreachable!()
    };
    match reply {
        BookReply::Keys { epoch, keys } => {
            trace.epoch = *epoch;
            trace.keys = keys.copy(alloc)?;
            Ok(())
        }
        BookReply::NoAnchor => Err(Refusal::NoAnchor),
        BookReply::Memory => Err(Refusal::Memory),
        _ => unreachable!(),
    }
}
