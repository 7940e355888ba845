// The marks that a reply names.

ghost use Rattle.std.specs.Prelude.{◌≡◌, IfOk};
ghost use Rattle.heeded_reply.specs.Claims.{claimed_marks};

use entity_statement::{MarkEntry, read_marks};
use fed_base::{Memory, Seq};
use fed_json::{Json, find, object_members};
use std::alloc::Global;

/// The marks that claims name (OpenID Federation 1.0 section 8.3.2, `trust_marks`): none where the claim is absent, or no list of marks.
#[tactic(auto, unfolding(crate::specs::Claims::claimed_marks))]
pub(crate) fn claimed_marks(alloc: Global, claims: &Json) -> Result<Seq<MarkEntry>, Memory>
    ensures { IfOk result (λ marks. marks ≡ claimed_marks claims.now) }
{
    let Some(tree) = find(object_members(claims), b"trust_marks") else {
        return Ok(Seq::new(alloc));
    };
    match read_marks(alloc, tree)? {
        Some(marks) => Ok(marks),
        None => Ok(Seq::new(alloc)),
    }
}
