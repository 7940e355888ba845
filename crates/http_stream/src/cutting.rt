// Taking from a source what is needed for one request.

ghost use Rattle.std.specs.Prelude.{◌≡◌, ◌≤◌, ◌<◌, ◌-◌, IfOk, OnErr, OnOk, length};
ghost use Rattle.http_messages.specs.Flows.{BreakCause, Comes, Given, OnFailed, TakenFew};
ghost use Rattle.http_messages.specs.Heads.{head_limit};
ghost use Rattle.http_messages.specs.Requests.{EndsEarly, request_limit};
ghost use Rattle.http_stream.specs.Cuttings.{BodyReached, BreaksEarly, Cutting, HasHead, HeadReached, ReadCause};

use crate::fault::StreamFault;
use crate::inbox::Inbox;
use fed_ports::Source;
use http_messages::{Break, Cut, Taking, cut_request, head_end, needed, pour_head_on, pour_to};
use std::alloc::Global;

// Adds what comes until a head stands at the front. Whether it does.
fn reach_head<P: Source>(from: &mut P, buffer: &mut [u8], text: &mut Vec<u8>) -> Result<bool, Break>
    requires early { EndsEarly text.old.items }
    requires room { 0 < length buffer.old }
    ensures reached { IfOk result (HeadReached (P.left from.old) (P.left from.new) text.old.items text.new.items) }
    ensures few { OnErr result (TakenFew (P.left from.old) (P.left from.new) head_limit) }
    ensures broke { OnFailed result (BreaksEarly (P.left from.old) (P.left from.new) text.old.items) }
    ensures side { P.source_side from.new ≡ P.source_side from.old }
    ensures cause { BreakCause (P.read_faults from.old) (P.read_faults from.new) result }
{
    if head_end(text, 0).is_some() {
        return Ok(true);
    }
    let end = pour_head_on::<P, Taking>(from, buffer, text)?;
    Ok(end.is_some())
}

// Adds what comes to text that has a head until the request stands whole, or nothing more comes.
fn reach_end<P: Source>(from: &mut P, buffer: &mut [u8], text: &mut Vec<u8>) -> Result<(), Break>
    requires head { HasHead text.old.items }
    requires room { 0 < length buffer.old }
    ensures reached { OnOk result (BodyReached (P.left from.old) (P.left from.new) text.old.items text.new.items) }
    ensures few { OnErr result (TakenFew (P.left from.old) (P.left from.new) (request_limit - length text.old.items)) }
    ensures broke { OnFailed result (BreaksEarly (P.left from.old) (P.left from.new) text.old.items) }
    ensures side { P.source_side from.new ≡ P.source_side from.old }
    ensures cause { BreakCause (P.read_faults from.old) (P.read_faults from.new) result }
{
    let until = needed(text);
    pour_to::<P, Taking>(from, buffer, text, until)?;
    Ok(())
}

// Cuts the request off that the text begins, once so much came of it as is needed.
fn read_cut<P: Source>(alloc: Global, from: &mut P, text: &mut Vec<u8>) -> Result<Cut, StreamFault>
    requires early { EndsEarly text.old.items }
    ensures cuts { Cutting (P.left from.old) (P.left from.new) text.old.items text.new.items result }
    ensures side { P.source_side from.new ≡ P.source_side from.old }
    ensures cause { ReadCause (P.read_faults from.old) (P.read_faults from.new) result }
{
    let mut buffer = [0u8; 4096];
    if !reach_head(from, &mut buffer, text)? {
        return Ok(cut_request(alloc, text)?);
    }
    let cut = cut_request(alloc, text)?;
    if let Cut::Whole { .. } = cut {
        return Ok(cut);
    }
    reach_end(from, &mut buffer, text)?;
    Ok(cut_request(alloc, text)?)
}

/// Cuts off what stands at the front, once it is whole or nothing more of it comes. Nothing is read where it is whole already.
pub(crate) fn next_cut<P: Source>(
    alloc: Global,
    from: &mut P,
    inbox: &mut Inbox,
) -> Result<Cut, StreamFault>
    ensures cuts { Cutting (P.left from.old) (P.left from.new) inbox.old inbox.new result }
    ensures side { P.source_side from.new ≡ P.source_side from.old }
    ensures cause { ReadCause (P.read_faults from.old) (P.read_faults from.new) result }
{
    let cut = cut_request(alloc, inbox.bytes())?;
    if let Cut::Whole { .. } = cut {
        return Ok(cut);
    }
    let mut text = inbox.take(alloc);
    let cut = read_cut(alloc, from, &mut text)?;
    inbox.put(text);
    Ok(cut)
}
