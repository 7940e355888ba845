// Moments and signatures along a chain.

ghost use Rattle.std.specs.Prelude.{◌≡◌, ◌<◌, ◌≤◌, ◌+◌, ◌↔◌, [], All, IfOk, IsSome, IsTrue, Some, length, slice_index_or};
ghost use Rattle.jws_form.specs.Compact.{IsCompact};
ghost use Rattle.sealed.specs.Seals.{IsSealedBy, named_key};
ghost use Rattle.chain_check.specs.declared.reason.Reason.TheVariants.{Times, Signature};
ghost use Rattle.fed_base.specs.Places.{FailsFirst};
ghost use Rattle.chain_check.specs.Counts.{CountsBoth, CountsChecks, CountsTest};
ghost use Rattle.chain_check.specs.Signatures.{AreCurrent, AreSigned, CurrentAt, SignedAt, keys_at, superior_keys as keys_above};
ghost use Rattle.entity_statement.specs.Signed.{IsSplit};
ghost use Rattle.chain_check.specs.Reading.{claims_in, texts_in};
ghost use Rattle.chain_check.specs.Stages.{Passes};

use crate::reason::Reason;
use crate::stop::Stop;
use entity_statement::SignedStatement;
use fed_base::{Ledger, Memory, Steps};
use jwk_set::JwkSet;
use jws_form::Compact;
use sealed::is_sealed;
use std::alloc::Global;

/// Looks whether each statement is current at the moment.
pub(crate) fn check_times(entries: &[SignedStatement], t: u64) -> Result<(), Stop>
    ensures { Passes result (λ _. AreCurrent (claims_in entries.now) t)
        (λ place reason. (reason ≡ Times)
        × FailsFirst (CurrentAt (claims_in entries.now) t) (length (claims_in entries.now)) place) }
{
    for (j, entry) in entries.iter().enumerate() {
        if !entry.statement.is_current(t) {
            return Err(Stop::Refused {
                place: j as u64,
                reason: Reason::Times,
            });
        }
    }
    Ok(())
}

/// Looks whether each text is signed by a key of its superior, the last by one of the trust anchor's keys, and the leaf's
/// by a key of its own too. Each pair of a text and a key is tested once.
pub(crate) fn check_signatures<L: Ledger>(
    alloc: Global,
    entries: &[SignedStatement],
    keys: &JwkSet,
    steps: &mut Steps<L>,
) -> Result<(), Stop>
    requires { All IsSplit entries.now }
    ensures signed { Passes result (λ _. AreSigned (texts_in entries.now) (claims_in entries.now) keys.now.keys)
        (λ place reason. (reason ≡ Signature)
        × FailsFirst (SignedAt (texts_in entries.now) (claims_in entries.now) keys.now.keys)
        (length (claims_in entries.now)) place) }
    ensures counted { CountsChecks (texts_in entries.now) (claims_in entries.now) keys.now.keys
        result (L.count steps.old.ledger) (L.count steps.new.ledger) }
{
    for j in 0..entries.len() {
        if !is_signed(alloc, entries, keys, j, steps)? {
            return Err(Stop::Refused {
                place: j as u64,
                reason: Reason::Signature,
            });
        }
    }
    Ok(())
}

fn is_signed<L: Ledger>(
    alloc: Global,
    entries: &[SignedStatement],
    keys: &JwkSet,
    j: usize,
    steps: &mut Steps<L>,
) -> Result<bool, Memory>
    requires within { j < length entries.now }
    requires split { All IsSplit entries.now }
    ensures signed { IfOk result (λ signed. IsTrue signed
        ↔ SignedAt (texts_in entries.now) (claims_in entries.now) keys.now.keys j) }
    ensures leaf { j ≡ 0
        → CountsBoth (slice_index_or (texts_in entries.now) 0 []) (keys_at (claims_in entries.now) 0 []) (keys_above (claims_in entries.now) keys.now.keys 0)
        result (L.count steps.old.ledger) (L.count steps.new.ledger) }
    ensures others { 0 < j
        → CountsTest (keys_above (claims_in entries.now) keys.now.keys j) (slice_index_or (texts_in entries.now) j [])
        result (L.count steps.old.ledger) (L.count steps.new.ledger) }
{
    let entry = &entries[j];
    let superior = superior_keys(entries, keys, j);
    if j == 0 {
        is_sealed_by_both(
            alloc,
            &entry.compact,
            &entry.statement.jwks,
            superior,
            steps,
        )
    } else {
        is_sealed(alloc, &entry.compact, superior, steps)
    }
}

/// The keys in the next statement, or the trust anchor's for the last.
pub(crate) fn superior_keys<'a>(
    entries: &'a [SignedStatement],
    keys: &'a JwkSet,
    j: usize,
) -> &'a JwkSet
    requires { j < length entries.now }
    ensures { result.now.keys ≡ keys_above (claims_in entries.now) keys.now.keys j }
{
    match entries.get(j + 1) {
        Some(superior) => &superior.statement.jwks,
        None => keys,
    }
}

// Whether the text is sealed by a key of each of two sets. No check is made where its header names none in one of them,
// and one does where it names the same in both.
fn is_sealed_by_both<L: Ledger>(
    alloc: Global,
    compact: &Compact,
    own: &JwkSet,
    superior: &JwkSet,
    steps: &mut Steps<L>,
) -> Result<bool, Memory>
    requires { IsCompact compact.now.whole compact.now }
    ensures sealed { IfOk result (λ sealed. IsTrue sealed
        ↔ (IsSealedBy compact.now.whole own.now.keys × IsSealedBy compact.now.whole superior.now.keys)) }
    ensures counted { CountsBoth compact.now.whole own.now.keys superior.now.keys
        result (L.count steps.old.ledger) (L.count steps.new.ledger) }
{
    if !names_both(compact, own, superior) {
        return Ok(false);
    }
    if !is_sealed(alloc, compact, own, steps)? {
        return Ok(false);
    }
    if name_one_key(compact, own, superior) {
        return Ok(true);
    }
    is_sealed(alloc, compact, superior, steps)
}

/// The own key of the set that the text's header names, of the text's algorithm.
pub(crate) fn signing_key(compact: &Compact, set: &JwkSet) -> Option<[u8; 32]>
    ensures { result ≡ named_key compact.now set.now.keys }
{
    match &compact.kid {
        Some(kid) => set.key_of(kid, compact.alg),
        None => None,
    }
}

// Whether the text's header names a key in each of two sets.
fn names_both(compact: &Compact, own: &JwkSet, superior: &JwkSet) -> bool
    ensures { IsTrue result
        ↔ (IsSome (named_key compact.now own.now.keys) × IsSome (named_key compact.now superior.now.keys)) }
{
    signing_key(compact, own).is_some() && signing_key(compact, superior).is_some()
}

// Whether the text's header names the same key in both sets, or none in either.
fn name_one_key(compact: &Compact, own: &JwkSet, superior: &JwkSet) -> bool
    ensures { IsTrue result ↔ (named_key compact.now own.now.keys ≡ named_key compact.now superior.now.keys) }
{
    signing_key(compact, own) == signing_key(compact, superior)
}
