// The check of a trust mark, condition by condition.

ghost use Rattle.std.specs.Prelude.{◌≡◌, ◌≤◌, ◌↔◌, ℕ, Some, None, IfOk, IsTrue, MatchResult};
ghost use Rattle.entity_statement.specs.Told.{told};
ghost use Rattle.entity_statement.specs.Claims.{OwnerClaims};
ghost use Rattle.trust_mark.specs.Counts.{mark_tests};
ghost use Rattle.trust_mark.specs.Marks.{Case, HasDelegation, IsGood, IsListed, case_of, mark_of, owner_of};
ghost use Rattle.trust_mark.specs.Signed.{IsReading};
ghost use Rattle.trust_mark.specs.Verdicts.{HasEnded, IfGood, IsVerdictOn, NeverEnds, is_good};
ghost use Rattle.trust_mark.specs.declared.mark.Mark.{Mark as Claimed};
ghost use Rattle.trust_mark.specs.declared.verdict.MarkVerdict.{MarkVerdict as Answer};
ghost use Rattle.trust_mark.specs.declared.verdict.MarkVerdict.TheVariants.{Good};
ghost use Rattle.fed_base.specs.Counts.{CountsAtMost, counted};

use crate::conditions::claims_reason;
use crate::delegation::is_delegated;
use crate::mark::Mark;
use crate::signed::{Signed, signed_mark};
use crate::verdict::{MarkReason, MarkVerdict};
use entity_id::EntityId;
use entity_statement::{MarkEntry, Statement};
use fed_base::{Ledger, Memory, Steps};
use jwk_set::JwkSet;
use sealed::is_sealed;
use std::alloc::Global;

/// Whether the mark of an entry is good for the leaf (OpenID Federation 1.0 section 7.3), by the trust anchor's
/// configuration, the keys of the configuration of the mark's issuer, and the moment, in seconds since 1970. It answers
/// until when it is good, or the first reason for which it isn't, in the order of [`MarkReason`].
pub fn verify_mark<L: Ledger>(
    alloc: Global,
    entry: &MarkEntry,
    leaf: &EntityId,
    anchor: &Statement,
    issuer_keys: &JwkSet,
    t: u64,
    steps: &mut Steps<L>,
) -> Result<MarkVerdict, Memory>
    ensures verdict { IfOk result (IsVerdictOn (case_of entry.now leaf.now (told anchor.now) issuer_keys.now.keys t)) }
    ensures only { IfOk result (λ verdict. IsTrue (is_good verdict)
        ↔ IsGood (case_of entry.now leaf.now (told anchor.now) issuer_keys.now.keys t)) }
    // A mark has one verdict.
    ensures one { IfOk result (λ verdict. (other : Answer)
        → IsVerdictOn (case_of entry.now leaf.now (told anchor.now) issuer_keys.now.keys t) other → other ≡ verdict) }
    // What is good for one leaf is good for no other, whoever is asked and when.
    ensures one_leaf { IfOk result (λ verdict. (other : Case) → other.entry ≡ entry.now → IsGood other
        → IfGood verdict (λ _. other.leaf ≡ leaf.now)) }
    // It is of a type that the trust anchor lists, and where the type has an owner, by the owner's leave.
    ensures listed { IfOk result (λ verdict. IfGood verdict (λ _. IsListed (told anchor.now) entry.now.mark_type)) }
    ensures owned { IfOk result (λ verdict. (owner : OwnerClaims) → owner_of (told anchor.now) entry.now.mark_type ≡ Some owner
        → IfGood verdict (λ _. HasDelegation entry.now.text owner t)) }
    // What doesn't end stays good, and what has ended is good at no later moment.
    ensures lasts { IfOk result (λ verdict. (mark : Claimed) → mark_of entry.now.text ≡ Some mark → NeverEnds (told anchor.now) mark
        → (later : ℕ) → t ≤ later → IfGood verdict (λ _.
        IsVerdictOn (case_of entry.now leaf.now (told anchor.now) issuer_keys.now.keys later) (Good None))) }
    ensures ended { (mark : Claimed) → mark_of entry.now.text ≡ Some mark → HasEnded mark t
        → (later : ℕ) → t ≤ later → ¬ IsGood (case_of entry.now leaf.now (told anchor.now) issuer_keys.now.keys later) }
    // How many signatures were tested, as the ledger that was lent counts them.
    ensures counted { MatchResult result
        (λ _. L.count steps.new.ledger ≡ counted (mark_tests (case_of entry.now leaf.now (told anchor.now) issuer_keys.now.keys t)) (L.count steps.old.ledger))
        (λ _. CountsAtMost (mark_tests (case_of entry.now leaf.now (told anchor.now) issuer_keys.now.keys t)) (L.count steps.old.ledger) (L.count steps.new.ledger)) }
{
    verified(alloc, entry, leaf, anchor, issuer_keys, t, steps)
}

fn verified<L: Ledger>(
    alloc: Global,
    entry: &MarkEntry,
    leaf: &EntityId,
    anchor: &Statement,
    issuer_keys: &JwkSet,
    t: u64,
    steps: &mut Steps<L>,
) -> Result<MarkVerdict, Memory>
    ensures verdict { IfOk result (IsVerdictOn (case_of entry.now leaf.now (told anchor.now) issuer_keys.now.keys t)) }
    ensures counted { MatchResult result
        (λ _. L.count steps.new.ledger ≡ counted (mark_tests (case_of entry.now leaf.now (told anchor.now) issuer_keys.now.keys t)) (L.count steps.old.ledger))
        (λ _. CountsAtMost (mark_tests (case_of entry.now leaf.now (told anchor.now) issuer_keys.now.keys t)) (L.count steps.old.ledger) (L.count steps.new.ledger)) }
{
    match signed_mark(alloc, entry.text.as_slice())? {
        Some(signed) => {
            let verdict = verdict_on(alloc, &signed, entry, leaf, anchor, issuer_keys, t, steps);
            // as one value, so that the proof doesn't follow each of its parts
            drop(signed);
            verdict
        }
        None => Ok(MarkVerdict::Bad(MarkReason::Form)),
    }
}

// The verdict on the mark that the entry's text reads as.
fn verdict_on<L: Ledger>(
    alloc: Global,
    signed: &Signed<Mark>,
    entry: &MarkEntry,
    leaf: &EntityId,
    anchor: &Statement,
    issuer_keys: &JwkSet,
    t: u64,
    steps: &mut Steps<L>,
) -> Result<MarkVerdict, Memory>
    requires { IsReading mark_of entry.now.text (Some signed.now) }
    ensures verdict { IfOk result (IsVerdictOn (case_of entry.now leaf.now (told anchor.now) issuer_keys.now.keys t)) }
    ensures counted { MatchResult result
        (λ _. L.count steps.new.ledger ≡ counted (mark_tests (case_of entry.now leaf.now (told anchor.now) issuer_keys.now.keys t)) (L.count steps.old.ledger))
        (λ _. CountsAtMost (mark_tests (case_of entry.now leaf.now (told anchor.now) issuer_keys.now.keys t)) (L.count steps.old.ledger) (L.count steps.new.ledger)) }
{
    if let Some(reason) = claims_reason(&signed.claims, entry, leaf, anchor, t) {
        return Ok(MarkVerdict::Bad(reason));
    }
    if !is_sealed(alloc, &signed.compact, issuer_keys, steps)? {
        return Ok(MarkVerdict::Bad(MarkReason::Signature));
    }
    if !is_delegated(alloc, &signed.claims, anchor, t, steps)? {
        return Ok(MarkVerdict::Bad(MarkReason::Delegation));
    }
    Ok(MarkVerdict::Good(signed.claims.exp))
}
