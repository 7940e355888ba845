// What a mark grants, apart from its times.

ghost use Rattle.std.specs.Prelude.{◌≡◌, IfOk};
ghost use Rattle.trust_mark.specs.Claims.{Gives};
ghost use Rattle.trust_mark.specs.Stages.{grant_in, grant_of, marked};

use crate::both::both;
use crate::claims::{identifier_at, text_at};
use crate::fault::MarkFault;
use crate::mark::Mark;
use entity_id::EntityId;
use fed_base::{Duplicate, Memory, Text};
use fed_json::Member;
use std::alloc::Global;

/// Who grants a mark, to whom, and of which type.
#[derive(Drop)]
pub(crate) struct Grant {
    pub(crate) iss: EntityId,
    pub(crate) sub: EntityId,
    pub(crate) mark_type: Text,
}

impl Grant {
    /// The mark of this grant.
    pub(crate) fn marked(self, iat: u64, exp: Option<u64>, delegation: Option<Text>) -> Mark
        ensures { result ≡ marked self iat exp delegation }
    {
        Mark {
            iss: self.iss,
            sub: self.sub,
            mark_type: self.mark_type,
            iat,
            exp,
            delegation,
        }
    }
}

/// The grant that claims say, or their first fault.
#[tactic(auto, unfolding(crate::specs::Stages::grant_in))]
pub(crate) fn grant_in(alloc: Global, claims: &[Member]) -> Result<Grant, MarkFault>
    ensures { Gives result (grant_in claims.now) }
{
    let iss = identifier_at(alloc, claims, b"iss")?;
    let (iss, sub) = both(iss, identifier_at(alloc, claims, b"sub"))?;
    let ((iss, sub), mark_type) = both((iss, sub), text_at(alloc, claims, b"trust_mark_type"))?;
    Ok(Grant {
        iss,
        sub,
        mark_type,
    })
}

/// A copy of the mark's grant.
pub(crate) fn grant_of(alloc: Global, mark: &Mark) -> Result<Grant, Memory>
    ensures { IfOk result (λ grant. grant ≡ grant_of mark.now) }
{
    let iss = mark.iss.copy(alloc)?;
    let (iss, sub) = both(iss, mark.sub.copy(alloc))?;
    let ((iss, sub), mark_type) = both((iss, sub), mark.mark_type.copy(alloc))?;
    Ok(Grant {
        iss,
        sub,
        mark_type,
    })
}
