// Reading a request.

ghost use Rattle.std.specs.Prelude.{◌≡◌, ◌≤◌, ℕ, List, Some, IfOk, length};
ghost use Rattle.std.specs.List.{position_or_len};
ghost use Rattle.http_messages.specs.Plans.{IsAsked, end_of, without_head};
ghost use Rattle.http_messages.specs.Readings.{CausedBy, Reads, Taken};
ghost use Rattle.http_messages.specs.Requests.{is_question, pairs_of};

use crate::heads::HEAD_LIMIT;
use crate::inflow::{Break, pour_head, pour_to};
use crate::plan::read_plan;
use crate::request::{Incoming, Method, Pair, Request};
use crate::sources::Taking;
use fed_ports::{Memory, Seq, Source, Text};
use std::alloc::Global;
use thiserror::Error;

/// Why no request was read.
#[derive(Clone, Copy, Debug, PartialEq, Eq, Drop, Error)]
pub enum ReadEnd {
    /// The source failed: its count of faults rose in the call, or stands at its last value, 2^64 - 1.
    #[error("the request could not be read")]
    ReadFault,
    /// The bytes end before the head does, or before the body whose length the head gives.
    #[error("the request ends early")]
    Ended,
    /// Memory was wanting.
    #[error("out of memory")]
    Memory,
}

// The place of the first question mark, or the length.
fn question(target: &[u8]) -> usize
    ensures value { result ≡ position_or_len is_question target.now }
    ensures within { result ≤ length target.now }
{
    match target.iter().position(|&b| b == b'?') {
        Some(at) => at,
        None => target.len(),
    }
}

// The decoded pairs of a query.
fn pairs(alloc: Global, query: &[u8]) -> Result<Seq<Pair>, Memory>
    ensures { IfOk result (λ found. found ≡ pairs_of query.now) }
{
    let mut found = Seq::new(alloc);
    for pair in form_urlencoded::parse(alloc, query) {
        let (name, value) = pair?;
        let name = Text::of(alloc, name.as_bytes())?;
        let value = Text::of(alloc, value.as_bytes())?;
        found.push(Pair { name, value })?;
    }
    Ok(found)
}

// The request of a method, a target and a body.
pub(crate) fn asked(
    alloc: Global,
    method: Method,
    target: &[u8],
    body: &[u8],
) -> Result<Request, Memory>
    ensures { IfOk result (λ r. IsAsked r method target.now body.now) }
{
    let at = question(target);
    let path = Text::of(alloc, &target[..at])?;
    let pairs = pairs(alloc, target.get(at + 1..).unwrap_or(&[]))?;
    let body = Text::of(alloc, body)?;
    Ok(Request {
        method,
        path,
        pairs,
        body,
    })
}

// Why a request wasn't read, where reading broke off.
fn end_of(fault: Break) -> ReadEnd
    ensures { result ≡ end_of fault }
{
    match fault {
        Break::Failed => ReadEnd::ReadFault,
        Break::Memory => ReadEnd::Memory,
    }
}

// What so many bytes show where no head is in them and none will come.
fn without_head(have: usize) -> Result<Incoming, ReadEnd>
    ensures { result ≡ without_head have }
{
    if have < HEAD_LIMIT {
        Err(ReadEnd::Ended)
    } else {
        Ok(Incoming::NotARequest)
    }
}

// What was taken, and what it shows.
fn take_request<P: Source>(alloc: Global, from: &mut P) -> Result<Incoming, ReadEnd>
    ensures taken { Taken (P.left from.old) (P.left from.new) result }
    ensures cause { CausedBy (P.read_faults from.old) (P.read_faults from.new) result }
    ensures side { P.source_side from.new ≡ P.source_side from.old }
{
    let mut buffer = [0u8; 4096];
    let mut text = Vec::new(alloc);
    let end = match pour_head::<P, Taking>(from, &mut buffer, &mut text) {
        Ok(end) => end,
        Err(fault) => return Err(end_of(fault)),
    };
    let Some(len) = end else {
        return without_head(text.len());
    };
    let Some(plan) = read_plan(&text[..len]) else {
        return Ok(Incoming::NotARequest);
    };
    let until = len + plan.size;
    match pour_to::<P, Taking>(from, &mut buffer, &mut text, until) {
        Err(fault) => Err(end_of(fault)),
        Ok(_) => if text.len() < until {
            Err(ReadEnd::Ended)
        } else {
            let target = plan.target.of(&text[..len]);
            match asked(alloc, plan.method, target, &text[len..until]) {
                Ok(request) => Ok(Incoming::Asked(request)),
                Err(Memory) => Err(ReadEnd::Memory),
            }
        },
    }
}

/// Reads one request (RFC 9112 sections 3 and 6), in whatever pieces its bytes come. At most 316,384 bytes are taken, at least one by each
/// call of the source; bytes behind the request may be among them.
pub fn read_request<P: Source>(alloc: Global, from: &mut P) -> Result<Incoming, ReadEnd>
    ensures answer { (x : List ℕ) → P.left from.old ≡ Some x → Reads x result }
    ensures taken { Taken (P.left from.old) (P.left from.new) result }
    ensures cause { CausedBy (P.read_faults from.old) (P.read_faults from.new) result }
    ensures side { P.source_side from.new ≡ P.source_side from.old }
{
    take_request(alloc, from)
}
