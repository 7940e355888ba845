// Responses that are no reply (OpenID Federation 1.0 section 8.9).

ghost use Rattle.std.specs.Prelude.{◌≡◌, ◌++◌, decimal, IfOk, OnOk};
ghost use Rattle.http_messages.specs.declared.response.Media.TheVariants as media;
ghost use Rattle.fed_serve.specs.Resolutions.{IsMade};
ghost use Rattle.fed_serve.specs.ResolverResponses.{another_epoch, changed, not_in_control, resolve_response, rotate_response};

use fed_base::{Memory, Text};
use fed_resolver::Refusal;
use http_plain::{Media, Response};
use statement_shelf::BookReply;
use std::alloc::Global;

const NO_ANCHOR: &[u8] =
    b"{\"error\":\"invalid_trust_anchor\",\"error_description\":\"no such trust anchor\"}";

const NOT_FOUND: &[u8] = b"{\"error\":\"not_found\",\"error_description\":\"no such entity\"}";

const POLICY_ONLY: &[u8] =
    b"{\"error\":\"invalid_metadata\",\"error_description\":\"policies refuse the metadata\"}";

const NO_CHAIN: &[u8] =
    b"{\"error\":\"invalid_trust_chain\",\"error_description\":\"no valid trust chain\"}";

const UNAVAILABLE: &[u8] =
    b"{\"error\":\"temporarily_unavailable\",\"error_description\":\"a fetch failed\"}";

const BUDGET: &[u8] = b"{\"error\":\"server_error\",\"error_description\":\"search budget ended\"}";

const NOT_IN_CONTROL: &[u8] =
    b"{\"error\":\"invalid_client\",\"error_description\":\"not sealed by a control key\"}";

// A response of this status with a body of JSON.
fn json(alloc: Global, status: u16, body: &[u8]) -> Result<Response, Memory>
    ensures { IfOk result (λ response. response ≡ record { status = status; media = media.Json; body = body.now }) }
{
    Ok(Response {
        status,
        media: Media::Json,
        body: Text::of(alloc, body)?,
    })
}

// Adds a number in decimal digits.
fn add_number(alloc: Global, body: &mut Text, n: u64) -> Result<(), Memory>
    ensures { OnOk result (body.new ≡ body.old ++ decimal n) }
{
    let digits = format!(in alloc; "{n}")?;
    body.append(digits.as_bytes())
}

/// What a refused resolve call is answered with.
pub(crate) fn refused(alloc: Global, refusal: &Refusal) -> Result<Response, Memory>
    ensures { IsMade (resolve_response (Err refusal.now)) result }
{
    match refusal {
        Refusal::NoAnchor => json(alloc, 404, NO_ANCHOR),
        Refusal::NotFound => json(alloc, 404, NOT_FOUND),
        Refusal::PolicyOnly => json(alloc, 400, POLICY_ONLY),
        Refusal::NoChain => json(alloc, 400, NO_CHAIN),
        Refusal::Unavailable => json(alloc, 503, UNAVAILABLE),
        Refusal::Budget { calls: _, paths: _ } => json(alloc, 500, BUDGET),
        Refusal::Worn(_) | Refusal::Memory => Err(Memory),
    }
}

/// The answer where the body isn't sealed by a control key.
pub(crate) fn not_in_control(alloc: Global) -> Result<Response, Memory>
    ensures { IsMade (Some not_in_control) result }
{
    json(alloc, 403, NOT_IN_CONTROL)
}

// The keys were changed, and this is the epoch.
fn changed(alloc: Global, epoch: u64) -> Result<Response, Memory>
    ensures { IfOk result (λ response. response ≡ changed epoch) }
{
    let mut body = Text::of(alloc, b"{\"epoch\":")?;
    add_number(alloc, &mut body, epoch)?;
    body.push(b'}')?;
    Ok(Response {
        status: 200,
        media: Media::Json,
        body,
    })
}

// The change came from another epoch than this.
fn another_epoch(alloc: Global, epoch: u64) -> Result<Response, Memory>
    ensures { IfOk result (λ response. response ≡ another_epoch epoch) }
{
    let mut body = Text::of(alloc, b"{\"epoch\":")?;
    add_number(alloc, &mut body, epoch)?;
    body.append(b",\"error\":\"invalid_request\",\"error_description\":\"another epoch\"}")?;
    Ok(Response {
        status: 409,
        media: Media::Json,
        body,
    })
}

/// What a change of keys is answered with, by the reply of the book.
pub(crate) fn replied(alloc: Global, reply: &BookReply) -> Result<Response, Memory>
    ensures { IsMade (rotate_response reply.now) result }
{
    match reply {
        BookReply::Rotated(epoch) => changed(alloc, *epoch),
        BookReply::Behind(epoch) => another_epoch(alloc, *epoch),
        BookReply::NoAnchor => json(alloc, 404, NO_ANCHOR),
        _ => Err(Memory),
    }
}
