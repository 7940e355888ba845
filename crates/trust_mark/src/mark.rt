// Trust marks and delegations.

ghost use Rattle.std.specs.Prelude.{IfOk, Ok};
ghost use Rattle.trust_mark.specs.Claims.{Gives, delegation_claims, delegation_in, delegation_of_tree, mark_claims, mark_of_tree};
ghost use Rattle.trust_mark.specs.Grammar.{IsDelegation, IsMark};
ghost use Rattle.trust_mark.specs.declared.mark.Mark.{Mark as Claimed};

use crate::both::both;
use crate::claims::{moment_at, moment_if_there, text_if_there};
use crate::fault::MarkFault;
use crate::grant::{grant_in, grant_of};
use crate::payload::payload;
use entity_id::EntityId;
use fed_base::{Duplicate, Memory, Text};
use fed_json::{Json, Member};
use jws_form::Compact;
use std::alloc::Global;

/// The `typ` of the header of a trust mark (OpenID Federation 1.0 section 7.1).
pub const MARK_TYPE: &[u8] = b"trust-mark+jwt";

/// The `typ` of the header of a delegation (section 7.2.1).
pub const DELEGATION_TYPE: &[u8] = b"trust-mark-delegation+jwt";

/// What a trust mark claims (OpenID Federation 1.0 section 7.1), or a delegation (section 7.2.1).
#[derive(Drop)]
pub struct Mark {
    /// Who issued it: of a delegation, who owns the type.
    pub iss: EntityId,
    /// Whom it is about: of a delegation, who may issue marks of the type.
    pub sub: EntityId,
    /// The claim `trust_mark_type`.
    pub mark_type: Text,
    /// Seconds since 1970, below 2^62.
    pub iat: u64,
    /// Seconds since 1970, below 2^62; it never ends where this is absent.
    pub exp: Option<u64>,
    /// The compact text by which the type's owner lets the issuer issue it, unread. A delegation has none.
    pub delegation: Option<Text>,
}

impl Mark {
    /// What a compact text claims as a trust mark, or its first fault, in the order of [`MarkFault`]. Claims of other
    /// names are left unread.
    pub fn read(alloc: Global, compact: &Compact) -> Result<Mark, MarkFault>
        ensures exact { Gives result (mark_claims compact.now) }
        ensures found { IfOk result (IsMark compact.now) }
        ensures only { (mark : Claimed) → IsMark compact.now mark → Gives result (Ok mark) }
    {
        mark_in_text(alloc, compact)
    }

    /// What a tree claims as the payload of a trust mark, or its first fault, in the order of [`MarkFault`] from `Tree` on.
    #[tactic(auto, unfolding(crate::specs::Claims::mark_of_tree, crate::specs::Claims::mark_in))]
    pub fn of_claims(alloc: Global, claims: &Json) -> Result<Mark, MarkFault>
        ensures { Gives result (mark_of_tree claims.now) }
    {
        let Json::Object(claims) = claims else {
            return Err(MarkFault::Tree);
        };
        let claims = claims.as_slice();
        let mark = delegation_in(alloc, claims)?;
        let (mark, delegation) = both(mark, text_if_there(alloc, claims, b"delegation"))?;
        Ok(Mark {
            iss: mark.iss,
            sub: mark.sub,
            mark_type: mark.mark_type,
            iat: mark.iat,
            exp: mark.exp,
            delegation,
        })
    }
}

/// What a compact text claims as a delegation (OpenID Federation 1.0 section 7.2.1), or its first fault, in the order of
/// [`MarkFault`]. The claim `delegation` is left unread.
pub fn read_delegation(alloc: Global, compact: &Compact) -> Result<Mark, MarkFault>
    ensures exact { Gives result (delegation_claims compact.now) }
    ensures found { IfOk result (IsDelegation compact.now) }
    ensures only { (mark : Claimed) → IsDelegation compact.now mark → Gives result (Ok mark) }
{
    delegation_in_text(alloc, compact)
}

// The mark in a text of its type.
#[tactic(auto, unfolding(crate::specs::Claims::mark_claims))]
fn mark_in_text(alloc: Global, compact: &Compact) -> Result<Mark, MarkFault>
    ensures { Gives result (mark_claims compact.now) }
{
    let claims = payload(alloc, compact, MARK_TYPE)?;
    Mark::of_claims(alloc, &claims)
}

// The delegation in a text of its type.
#[tactic(auto, unfolding(crate::specs::Claims::delegation_claims))]
fn delegation_in_text(alloc: Global, compact: &Compact) -> Result<Mark, MarkFault>
    ensures { Gives result (delegation_claims compact.now) }
{
    let claims = payload(alloc, compact, DELEGATION_TYPE)?;
    delegation_of_claims(alloc, &claims)
}

/// What a tree claims as the payload of a delegation, or its first fault, in the order of [`MarkFault`] from `Tree` on.
#[tactic(auto, unfolding(crate::specs::Claims::delegation_of_tree))]
pub fn delegation_of_claims(alloc: Global, claims: &Json) -> Result<Mark, MarkFault>
    ensures { Gives result (delegation_of_tree claims.now) }
{
    match claims {
        Json::Object(claims) => delegation_in(alloc, claims.as_slice()),
        _ => Err(MarkFault::Tree),
    }
}

// The claims that marks and delegations have.
#[tactic(auto, unfolding(crate::specs::Claims::delegation_in))]
fn delegation_in(alloc: Global, claims: &[Member]) -> Result<Mark, MarkFault>
    ensures { Gives result (delegation_in claims.now) }
{
    let grant = grant_in(alloc, claims)?;
    let (grant, iat) = both(grant, moment_at(alloc, claims, b"iat"))?;
    let (grant, exp) = both(grant, moment_if_there(alloc, claims, b"exp"))?;
    Ok(grant.marked(iat, exp, None))
}

impl Duplicate for Mark {
    fn copy(&self, alloc: Global) -> Result<Self, Memory> {
        let grant = grant_of(alloc, self)?;
        let (grant, delegation) = both(grant, self.delegation.copy(alloc))?;
        Ok(grant.marked(self.iat, self.exp, delegation))
    }
}
