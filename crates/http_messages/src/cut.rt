// Cutting requests off the front of a stream.

ghost use Rattle.std.specs.Prelude.{◌≡◌, ◌≤◌, IfOk, IfSome, None, Some, true, length, take};
ghost use Rattle.http_messages.specs.declared.cut.Cut.TheVariants as cut;
ghost use Rattle.http_messages.specs.declared.request.Incoming.TheVariants as incoming;
ghost use Rattle.http_messages.specs.Cuts.{IsCut, Needs};
ghost use Rattle.http_messages.specs.Heads.{head_end, head_limit};
ghost use Rattle.http_messages.specs.Plans.{SaysPlan};

use crate::heads::{HEAD_LIMIT, head_end};
use crate::plan::{Plan, read_plan};
use crate::read::asked;
use crate::request::Incoming;
use fed_ports::Memory;
use std::alloc::Global;

/// What stands at the front of a stream of requests.
#[derive(Drop)]
pub enum Cut {
    /// A request, or what isn't one, and how many bytes it has; all of them, where they aren't a request. `last` says that no other is to
    /// be read behind it: it is of HTTP/1.0, a `Connection` line has `close` among its members, or the bytes aren't a request.
    Whole {
        asked: Incoming,
        last: bool,
        used: usize,
    },
    /// The bytes end before their request does.
    More,
}

// How long the head is with which the bytes begin.
fn front(bytes: &[u8]) -> Option<usize>
    ensures found { result ≡ head_end (take head_limit bytes.now) }
    ensures within { IfSome result (λ len. (len ≤ length bytes.now) × (len ≤ head_limit)) }
{
    head_end(&bytes[..HEAD_LIMIT.min(bytes.len())], 0)
}

// The bytes, which aren't a request.
fn not_a_request(bytes: &[u8]) -> Cut
    ensures { result ≡ cut.Whole incoming.NotARequest true (length bytes.now) }
{
    Cut::Whole {
        asked: Incoming::NotARequest,
        last: true,
        used: bytes.len(),
    }
}

// What bytes without a head are.
#[tactic(auto, using(crate::proofs::Cutting::short_of_head, crate::proofs::Cutting::past_head))]
fn without_head(bytes: &[u8]) -> Cut
    requires { head_end (take head_limit bytes.now) ≡ None }
    ensures { IsCut bytes.now result }
{
    if bytes.len() < HEAD_LIMIT {
        Cut::More
    } else {
        not_a_request(bytes)
    }
}

// What bytes are that begin with a head of that length, which says this.
fn behind_head(alloc: Global, bytes: &[u8], len: usize, plan: Plan) -> Result<Cut, Memory>
    requires found { head_end (take head_limit bytes.now) ≡ Some len }
    requires says { SaysPlan (take len bytes.now) plan }
    ensures { IfOk result (λ cut. IsCut bytes.now cut) }
{
    let used = len + plan.size;
    if plan.is_stray {
        return Ok(not_a_request(bytes));
    }
    if bytes.len() < used {
        return Ok(Cut::More);
    }
    let request = asked(
        alloc,
        plan.method,
        plan.target.of(&bytes[..len]),
        &bytes[len..used],
    )?;
    Ok(Cut::Whole {
        asked: Incoming::Asked(request),
        last: plan.is_last,
        used,
    })
}

/// Cuts the first request off these bytes, which stand at the front of a stream of requests (RFC 9112 sections 9.3 and 9.6). A GET that
/// states a body of any bytes isn't one there.
pub fn cut_request(alloc: Global, bytes: &[u8]) -> Result<Cut, Memory>
    ensures cut { IfOk result (λ cut. IsCut bytes.now cut) }
{
    let Some(len) = front(bytes) else {
        return Ok(without_head(bytes));
    };
    match read_plan(&bytes[..len]) {
        Some(plan) => behind_head(alloc, bytes, len, plan),
        None => Ok(not_a_request(bytes)),
    }
}

/// The least length at which bytes that begin with these can be whole, by the head where it is there: so many bytes are needed before they
/// are worth cutting.
pub fn needed(bytes: &[u8]) -> usize
    ensures needs { Needs bytes.now result }
{
    let Some(len) = front(bytes) else {
        return HEAD_LIMIT.min(bytes.len().saturating_add(1));
    };
    match read_plan(&bytes[..len]) {
        Some(plan) => len + plan.size,
        None => len,
    }
}
