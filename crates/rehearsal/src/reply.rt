// The trust chain that a reply carries.

ghost use Rattle.std.specs.Prelude.{◌≡◌, IfOk, IfSome};
ghost use Rattle.jws_form.specs.Compact.{IsCompact};
ghost use Rattle.rehearsal.specs.Replies.{Carries, body_of};

use fed_base::{Memory, Seq, Text};
use fed_json::{TreeFault, read_tree};
use jws_form::{Compact, FormFault, split};
use resolve_reply::chain_of;
use std::alloc::Global;

/// The trust chain of the reply that a response carries, or `None` where it carries none.
pub(crate) fn chain_in(alloc: Global, response: &[u8]) -> Result<Option<Seq<Text>>, Memory>
    ensures { IfOk result (λ chain. IfSome chain (Carries (body_of response.now))) }
{
    match split(alloc, body_of(response)) {
        Ok(reply) => carried_chain(alloc, &reply),
        Err(FormFault::Memory) => Err(Memory),
        Err(_) => Ok(None),
    }
}

// The body of a message: what stands behind its first empty line.
#[tactic(auto, unfolding(crate::specs::Replies::body_of))]
fn body_of(message: &[u8]) -> &[u8]
    ensures { result.now ≡ body_of message.now }
{
    if let Some(body) = message.strip_prefix(b"\r\n\r\n") {
        return body;
    }
    match message.split_first() {
        Some((_, rest)) => body_of(rest),
        None => message,
    }
}

// The chain that the claims of a reply carry.
fn carried_chain(alloc: Global, reply: &Compact) -> Result<Option<Seq<Text>>, Memory>
    ensures { IfOk result (λ chain. IfSome chain (λ texts. IsCompact reply.now.whole reply.now → Carries reply.now.whole texts)) }
{
    match read_tree(alloc, reply.payload.as_slice()) {
        Ok(claims) => chain_of(alloc, &claims),
        Err(TreeFault::Syntax) => Ok(None),
        Err(TreeFault::Memory) => Err(Memory),
    }
}
