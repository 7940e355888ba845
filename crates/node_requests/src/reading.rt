// What a request asks a node for.

ghost use Rattle.std.specs.Prelude.{◌≡◌, IfOk, IfSome, MatchOption, option_map};
ghost use Rattle.node_requests.specs.Requests.{AsksFor, AsksNothing, IsFormed};
ghost use Rattle.node_requests.specs.Steps.{IsAskedBy, IsRotation, fetch_in, query_in, resolution_in, status_in};

use crate::asked::Asked;
use crate::change::read_change;
use crate::endpoints::kind_at;
use crate::kind::Kind;
use crate::parameters::{at_most_once, flag, form, once, values};
use crate::place::{Place, behind};
use crate::resolution::read_resolution;
use authority_core::ListQuery;
use fed_base::Memory;
use http_plain::{Pair, Request};
use std::alloc::Global;

// A statement about the subject that the parameters name.
fn fetch(alloc: Global, pairs: &[Pair]) -> Result<Option<Asked>, Memory>
    ensures asked { IfOk result (λ asked. asked ≡ fetch_in pairs.now) }
    ensures formed { IfOk result (λ asked. IfSome asked IsFormed) }
{
    match once(alloc, pairs, b"sub")? {
        Some(sub) => Ok(Some(Asked::Fetch(sub))),
        None => Ok(None),
    }
}

// The status of the trust mark that the form names.
fn status(alloc: Global, body: &[u8]) -> Result<Option<Asked>, Memory>
    ensures asked { IfOk result (λ asked. asked ≡ status_in body.now) }
    ensures formed { IfOk result (λ asked. IfSome asked IsFormed) }
{
    let pairs = form(alloc, body)?;
    match once(alloc, pairs.as_slice(), b"trust_mark")? {
        Some(mark) => Ok(Some(Asked::Status(mark))),
        None => Ok(None),
    }
}

// The filters that the parameters give.
#[tactic(auto, unfolding(crate::specs::Steps::query_in))]
fn query(alloc: Global, pairs: &[Pair]) -> Result<Option<ListQuery>, Memory>
    ensures { IfOk result (λ query. query ≡ query_in pairs.now) }
{
    let Some(trust_marked) = flag(pairs, b"trust_marked") else {
        return Ok(None);
    };
    let Some(intermediate) = flag(pairs, b"intermediate") else {
        return Ok(None);
    };
    let Some(mark_type) = at_most_once(alloc, pairs, b"trust_mark_type")? else {
        return Ok(None);
    };
    let types = values(alloc, pairs, b"entity_type")?;
    Ok(Some(ListQuery {
        types,
        trust_marked,
        mark_type,
        intermediate,
    }))
}

// The list of subordinates by the filters that the parameters give.
fn list(alloc: Global, pairs: &[Pair]) -> Result<Option<Asked>, Memory>
    ensures asked { IfOk result (λ asked. asked ≡ option_map Asked.List (query_in pairs.now)) }
    ensures formed { IfOk result (λ asked. IfSome asked IsFormed) }
{
    match query(alloc, pairs)? {
        Some(query) => Ok(Some(Asked::List(query))),
        None => Ok(None),
    }
}

// The entity that the parameters name, resolved up to the trust anchor that they name.
fn resolve(alloc: Global, pairs: &[Pair]) -> Result<Option<Asked>, Memory>
    ensures asked { IfOk result (λ asked. asked ≡ option_map Asked.Resolution (resolution_in pairs.now)) }
    ensures formed { IfOk result (λ asked. IfSome asked IsFormed) }
{
    match read_resolution(alloc, pairs)? {
        Some(resolution) => Ok(Some(Asked::Resolution(resolution))),
        None => Ok(None),
    }
}

// The other keys for a trust anchor that the body states.
fn rotate(alloc: Global, body: &[u8]) -> Result<Option<Asked>, Memory>
    ensures asked { IfOk result (IsRotation body.now) }
    ensures formed { IfOk result (λ asked. IfSome asked IsFormed) }
{
    match read_change(alloc, body)? {
        Some(change) => Ok(Some(Asked::Rotation(change))),
        None => Ok(None),
    }
}

// What a request of that kind asks for, where its parameters and its body are of their form.
fn asked_by(alloc: Global, kind: Kind, request: &Request) -> Result<Option<Asked>, Memory>
    ensures asked { IfOk result (IsAskedBy kind request.now) }
    ensures formed { IfOk result (λ asked. IfSome asked IsFormed) }
{
    match kind {
        Kind::Configuration => Ok(Some(Asked::Configuration)),
        Kind::Fetch => fetch(alloc, request.pairs.as_slice()),
        Kind::List => list(alloc, request.pairs.as_slice()),
        Kind::HistoricalKeys => Ok(Some(Asked::HistoricalKeys)),
        Kind::Status => status(alloc, request.body.as_slice()),
        Kind::Resolve => resolve(alloc, request.pairs.as_slice()),
        Kind::AnchorKeys => rotate(alloc, request.body.as_slice()),
        Kind::Other => Ok(None),
    }
}

/// What a request asks the node at that place for, and `None` where it asks for nothing that the node has: its method, its path, its
/// parameters or its body aren't those of one of the node's requests. Parameters and claims of other names are left unread.
pub fn asked_for(alloc: Global, place: &Place, request: &Request) -> Result<Option<Asked>, Memory>
    ensures asked { IfOk result (λ asked. MatchOption asked (AsksNothing place.now request.now) (AsksFor place.now request.now)) }
    ensures formed { IfOk result (λ asked. IfSome asked IsFormed) }
{
    match behind(request.path.as_slice(), place.path.as_slice()) {
        Some(rest) => asked_by(
            alloc,
            kind_at(place.resolves, request.method, rest),
            request,
        ),
        None => Ok(None),
    }
}
