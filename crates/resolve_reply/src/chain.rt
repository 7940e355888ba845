// The trust chain that a reply carries.

ghost use Rattle.std.specs.Prelude.{◌≡◌, IfOk};
ghost use Rattle.resolve_reply.specs.Replies.{chain_of};

use fed_base::{Memory, Seq, Text};
use fed_json::{Json, copied_texts, find, object_members};
use std::alloc::Global;

/// The trust chain that the claims of a reply carry, the entity's configuration first (OpenID Federation 1.0 section 8.3.2), or
/// `None` where the claim `trust_chain` is absent or isn't a list of texts.
#[tactic(auto, unfolding(crate::specs::Replies::chain_of))]
pub fn chain_of(alloc: Global, claims: &Json) -> Result<Option<Seq<Text>>, Memory>
    ensures { IfOk result (λ chain. chain ≡ chain_of claims.now) }
{
    match find(object_members(claims), b"trust_chain") {
        Some(chain) => copied_texts(alloc, chain),
        None => Ok(None),
    }
}
