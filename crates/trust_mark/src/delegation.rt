// Whether the owner of a type of marks lets the issuer issue them.

ghost use Rattle.std.specs.Prelude.{◌≡◌, ◌↔◌, IfOk, IfSome, IsTrue, MatchResult};
ghost use Rattle.std.specs.Option.{option_map_or};
ghost use Rattle.entity_statement.specs.Claims.{told_owner};
ghost use Rattle.entity_statement.specs.Told.{told};
ghost use Rattle.trust_mark.specs.Conditions.{is_for};
ghost use Rattle.trust_mark.specs.Counts.{delegation_tests};
ghost use Rattle.trust_mark.specs.Marks.{IsDelegated, owner_of};
ghost use Rattle.trust_mark.specs.Stages.{Carries};
ghost use Rattle.fed_base.specs.Counts.{counted};

use crate::conditions::{is_current, owner_of};
use crate::mark::Mark;
use crate::signed::{Signed, signed_delegation};
use entity_statement::{Owner, Statement};
use fed_base::{Ledger, Memory, Steps};
use sealed::is_sealed;
use std::alloc::Global;

/// Whether the mark has a delegation of its type's owner, where the type has one. A test of a signature is counted where
/// nothing before it fails and the delegation's header names a key of the owner's.
pub(crate) fn is_delegated<L: Ledger>(
    alloc: Global,
    mark: &Mark,
    anchor: &Statement,
    t: u64,
    steps: &mut Steps<L>,
) -> Result<bool, Memory>
    ensures delegated { IfOk result (λ delegated. IsTrue delegated
        ↔ IfSome (owner_of (told anchor.now) mark.now.mark_type) (λ owner. IsDelegated mark.now owner t)) }
    ensures counted { MatchResult result
        (λ _. L.count steps.new.ledger
        ≡ counted (option_map_or (delegation_tests mark.now t) (owner_of (told anchor.now) mark.now.mark_type) 0) (L.count steps.old.ledger))
        (λ _. L.count steps.new.ledger ≡ L.count steps.old.ledger) }
{
    match owner_of(anchor, mark.mark_type.as_slice()) {
        Some(owner) => is_delegated_by(alloc, mark, owner, t, steps),
        None => Ok(true),
    }
}

fn is_delegated_by<L: Ledger>(
    alloc: Global,
    mark: &Mark,
    owner: &Owner,
    t: u64,
    steps: &mut Steps<L>,
) -> Result<bool, Memory>
    ensures delegated { IfOk result (λ delegated. IsTrue delegated
        ↔ IsDelegated mark.now (told_owner owner.now) t) }
    ensures counted { MatchResult result
        (λ _. L.count steps.new.ledger
        ≡ counted (delegation_tests mark.now t (told_owner owner.now)) (L.count steps.old.ledger))
        (λ _. L.count steps.new.ledger ≡ L.count steps.old.ledger) }
{
    let Some(text) = &mark.delegation else {
        return Ok(false);
    };
    match signed_delegation(alloc, text.as_slice())? {
        Some(delegation) => {
            let good = is_good(alloc, &delegation, mark, owner, t, steps);
            // as one value, so that the proof doesn't follow each of its parts
            drop(delegation);
            good
        }
        None => Ok(false),
    }
}

// Whether the mark's delegation is for it, and sealed by a key of the owner's.
fn is_good<L: Ledger>(
    alloc: Global,
    delegation: &Signed<Mark>,
    mark: &Mark,
    owner: &Owner,
    t: u64,
    steps: &mut Steps<L>,
) -> Result<bool, Memory>
    requires { Carries mark.now delegation.now }
    ensures delegated { IfOk result (λ delegated. IsTrue delegated
        ↔ IsDelegated mark.now (told_owner owner.now) t) }
    ensures counted { MatchResult result
        (λ _. L.count steps.new.ledger
        ≡ counted (delegation_tests mark.now t (told_owner owner.now)) (L.count steps.old.ledger))
        (λ _. L.count steps.new.ledger ≡ L.count steps.old.ledger) }
{
    if !is_for(&delegation.claims, mark, owner, t) {
        return Ok(false);
    }
    is_sealed(alloc, &delegation.compact, &owner.jwks, steps)
}

// Whether the delegation is a current one from the owner to the mark's issuer for the mark's type.
fn is_for(delegation: &Mark, mark: &Mark, owner: &Owner, t: u64) -> bool
    ensures { result ≡ is_for mark.now t (told_owner owner.now) delegation.now }
{
    is_current(delegation, t)
        && delegation.iss == owner.sub
        && delegation.sub == mark.iss
        && delegation.mark_type.as_slice() == mark.mark_type.as_slice()
}
