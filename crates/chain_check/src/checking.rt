// The check of a chain, rule by rule.

ghost use Rattle.std.specs.Prelude.{◌≡◌, ◌≤◌, ◌↔◌, ℕ, List, IfOk, IsTrue};
ghost use Rattle.jwk_set.specs.declared.jwk.Jwk.{Jwk};
ghost use Rattle.chain_check.specs.declared.verdict.Resolved.{Resolved};
ghost use Rattle.chain_check.specs.declared.verdict.Verdict.{Verdict as Answer};
ghost use Rattle.chain_check.specs.declared.verdict.Verdict.TheVariants.{Valid, Refused};
ghost use Rattle.chain_check.specs.Validity.{Case, IsValid, IsWithin, Merges, case_of};
ghost use Rattle.chain_check.specs.Verdicts.{CanBeWritten, IfValid, IsVerdictOn, is_valid};
ghost use Rattle.chain_check.specs.Chains.{statements_of};
ghost use Rattle.chain_check.specs.Counts.{CountsVerdict};
ghost use Rattle.chain_check.specs.Signatures.{AreCurrent, AreSigned, Extends, HasExpired};
ghost use Rattle.chain_check.specs.Stages.{Passes, verdict_in};

use crate::names::check_names;
use crate::reading::read_chain;
use crate::resolving::resolve;
use crate::signatures::{check_signatures, check_times};
use crate::stop::Stop;
use crate::verdict::{Resolved, Verdict};
use entity_id::EntityId;
use fed_base::{Ledger, Memory, Seq, Steps, Text};
use jwk_set::JwkSet;
use std::alloc::Global;

/// Whether the texts are a trust chain from the leaf up to the trust anchor, under the anchor's keys and at that moment,
/// in seconds since 1970 (OpenID Federation 1.0 section 10.2). It answers what the chain resolves to, or the first of its
/// failures, in the order of [`Reason`](crate::Reason).
pub fn check_chain<L: Ledger>(
    alloc: Global,
    chain: &Seq<Text>,
    anchor: &EntityId,
    keys: &JwkSet,
    t: u64,
    steps: &mut Steps<L>,
) -> Result<Verdict, Memory>
    ensures verdict { IfOk result (IsVerdictOn (case_of chain.now anchor.now keys.now.keys t)) }
    ensures only { IfOk result (λ verdict. IsTrue (is_valid verdict) ↔ IsValid (case_of chain.now anchor.now keys.now.keys t)) }
    // A chain has one verdict.
    ensures one { IfOk result (λ verdict. (other : Answer) → IsVerdictOn (case_of chain.now anchor.now keys.now.keys t) other → other ≡ verdict) }
    // What is valid is signed link by link, current, within all constraints and free of policy conflict.
    ensures signed { IfOk result (λ verdict. IfValid verdict (λ _. AreSigned chain.now (statements_of chain.now) keys.now.keys)) }
    ensures current { IfOk result (λ verdict. IfValid verdict (λ _. AreCurrent (statements_of chain.now) t)) }
    ensures within { IfOk result (λ verdict. IfValid verdict (λ _. IsWithin (statements_of chain.now))) }
    ensures merges { IfOk result (λ verdict. IfValid verdict (λ _. Merges (statements_of chain.now))) }
    // It stays valid under more keys of the trust anchor, and what has expired is valid at no later moment.
    ensures more_keys { IfOk result (λ verdict. (more : List Jwk) → Extends keys.now.keys more
        → IfValid verdict (λ resolved. IsVerdictOn (case_of chain.now anchor.now more t) (Valid resolved))) }
    ensures expired { HasExpired (statements_of chain.now) t
        → (later : ℕ) → t ≤ later → ¬ IsValid (case_of chain.now anchor.now keys.now.keys later) }
    // The texts alone decide what it resolves to.
    ensures texts_alone { IfOk result (λ verdict. (other : Case) (same : Resolved) → other.texts ≡ chain.now
        → IsVerdictOn other (Valid same) → IfValid verdict (λ resolved. resolved ≡ same)) }
    ensures written { IfOk result CanBeWritten }
    // How many signatures were checked, as the ledger that was lent counts them.
    ensures counted { CountsVerdict (case_of chain.now anchor.now keys.now.keys t)
        result (L.count steps.old.ledger) (L.count steps.new.ledger) }
{
    match checked(alloc, chain.as_slice(), anchor, keys, t, steps) {
        Ok(resolved) => Ok(Verdict::Valid(resolved)),
        Err(Stop::Refused { place, reason }) => Ok(Verdict::Refused { place, reason }),
        Err(Stop::Memory) => Err(Memory),
    }
}

fn checked<L: Ledger>(
    alloc: Global,
    texts: &[Text],
    anchor: &EntityId,
    keys: &JwkSet,
    t: u64,
    steps: &mut Steps<L>,
) -> Result<Resolved, Stop>
    ensures verdict { Passes result
        (λ resolved. IsVerdictOn (case_of texts.now anchor.now keys.now.keys t) (Valid resolved))
        (λ place reason. IsVerdictOn (case_of texts.now anchor.now keys.now.keys t) (Refused place reason)) }
    ensures written { Passes result (λ resolved. CanBeWritten (Valid resolved)) (λ place reason. CanBeWritten (Refused place reason)) }
    ensures counted { CountsVerdict (case_of texts.now anchor.now keys.now.keys t)
        (verdict_in result) (L.count steps.old.ledger) (L.count steps.new.ledger) }
{
    let entries = read_chain(alloc, texts)?;
    let entries = entries.as_slice();
    check_names(entries, anchor)?;
    check_times(entries, t)?;
    check_signatures(alloc, entries, keys, steps)?;
    resolve(alloc, entries)
}
