// Tests of signatures.

ghost use Rattle.std.specs.Prelude.{◌≡◌, ◌↔◌, ℕ, List, Some, None, Err, IfOk, IsTrue, MatchResult, if◌then◌else◌};
ghost use Rattle.fed_base.specs.Counts.{counted, next_count};
ghost use Rattle.jws_form.specs.Compact.{IsCompact};
ghost use Rattle.jwk_set.specs.KeySets.{key_named};
ghost use Rattle.sealed.specs.declared.fault.SealFault.TheVariants.{NoKid, NoKey};
ghost use Rattle.sealed.specs.Answers.{Decides, IsTested, IsChecked, Tells, was_checked};
ghost use Rattle.sealed.specs.Deciding.{is_sealed_by};
ghost use Rattle.sealed.specs.Seals.{IsSealedBy};
ghost use Rattle.sealed.specs.Tests.{tests_under};

use crate::fault::SealFault;
use crate::pairs::{Sealed, Unsealed};
use crate::tested::Tested;
use fed_base::{Duplicate, Ledger, Memory, Steps};
use jwk_set::JwkSet;
use jws_form::Compact;
use slh_dsa::verify;
use std::alloc::Global;

/// Whether the text verifies under the key, in the algorithm that its header names. It counts one step, and none where it
/// answers `Memory`.
pub fn test_key<L: Ledger>(
    alloc: Global,
    compact: &Compact,
    public: &[u8; 32],
    steps: &mut Steps<L>,
) -> Result<Tested, Memory>
    requires { IsCompact compact.now.whole compact.now }
    ensures tested { IfOk result (IsTested compact.now public.now) }
    ensures counted { MatchResult result
        (λ _. L.count steps.new.ledger ≡ next_count (L.count steps.old.ledger))
        (λ _. L.count steps.new.ledger ≡ L.count steps.old.ledger) }
{
    let text = compact.whole.copy(alloc)?;
    let (signed, signature) = (compact.signed.as_slice(), compact.signature.as_slice());
    if verify(compact.alg, public, signed, signature, steps) {
        Ok(Tested::Yes(Sealed::of(text, *public)))
    } else {
        Ok(Tested::No(Unsealed::of(text, *public)))
    }
}

/// The text with the own key of the set that its header names, by its `kid` and its `alg`, where it verifies under that
/// key. It counts one step where a key was found, and none where it answers `Memory`.
pub fn check_sealed<L: Ledger>(
    alloc: Global,
    compact: &Compact,
    set: &JwkSet,
    steps: &mut Steps<L>,
) -> Result<Sealed, SealFault>
    requires { IsCompact compact.now.whole compact.now }
    ensures checked { IsChecked compact.now set.now.keys result }
    ensures decides { Decides result (IsSealedBy compact.now.whole set.now.keys) }
    // What the header and the set decide is told whether memory is wanting or not.
    ensures nameless { compact.now.kid ≡ None → result ≡ Err NoKid }
    ensures keyless { (kid : List ℕ) → compact.now.kid ≡ Some kid → key_named kid compact.now.alg set.now.keys ≡ None → result ≡ Err NoKey }
    ensures counted { L.count steps.new.ledger
        ≡ (if was_checked result then next_count (L.count steps.old.ledger) else L.count steps.old.ledger) }
{
    let Some(kid) = &compact.kid else {
        return Err(SealFault::NoKid);
    };
    let Some(public) = set.key_of(kid, compact.alg) else {
        return Err(SealFault::NoKey);
    };
    match test_key(alloc, compact, &public, steps)? {
        Tested::Yes(seal) => Ok(seal),
        Tested::No(_) => Err(SealFault::BadSignature),
    }
}

/// Whether the text verifies under the own key of the set that its header names. It counts one step where a key was found,
/// and none where it answers `Memory`.
pub fn is_sealed<L: Ledger>(
    alloc: Global,
    compact: &Compact,
    set: &JwkSet,
    steps: &mut Steps<L>,
) -> Result<bool, Memory>
    requires { IsCompact compact.now.whole compact.now }
    ensures sealed { IfOk result (λ sealed. IsTrue sealed ↔ IsSealedBy compact.now.whole set.now.keys) }
    ensures test { IfOk result (λ sealed. sealed ≡ is_sealed_by compact.now.whole set.now.keys) }
    ensures counted { MatchResult result
        (λ _. L.count steps.new.ledger ≡ counted (tests_under set.now.keys compact.now.whole) (L.count steps.old.ledger))
        (λ _. L.count steps.new.ledger ≡ L.count steps.old.ledger) }
{
    was_sealed(check_sealed(alloc, compact, set, steps))
}

// Whether a check found a seal, unless memory was wanting.
fn was_sealed(checked: Result<Sealed, SealFault>) -> Result<bool, Memory>
    ensures { Tells checked result }
{
    match checked {
        Ok(_) => Ok(true),
        Err(SealFault::Memory) => Err(Memory),
        Err(_) => Ok(false),
    }
}
