// Which signatures are known, and the first that isn't.

ghost use Rattle.std.specs.Prelude.{◌≡◌, ◌<◌, ◌≤◌, ◌↔◌, All, Contains, IsTrue, length};
ghost use Rattle.jws_form.specs.Compact.{IsCompact};
ghost use Rattle.sealed.specs.Seals.{IsSealed, IsUnsealed};
ghost use Rattle.chain_check.specs.Judging.{IsOfItsText, pair_of, seal_keys, texts_of};
ghost use Rattle.entity_statement.specs.Signed.{IsSplit};
ghost use Rattle.chain_check.specs.Reading.{claims_in, texts_in};
ghost use Rattle.chain_check.specs.Stages.{FailsUntried, IsKnown, Passes, TestsFirst};

use crate::reason::Reason;
use crate::signatures::{signing_key, superior_keys};
use crate::stop::Stop;
use crate::tried::Tried;
use entity_statement::SignedStatement;
use jwk_set::JwkSet;
use jws_form::Compact;

/// A test that is wanted: of the text at a place, under a key.
#[derive(Drop)]
pub(crate) struct Test {
    pub place: u64,
    pub public: [u8; 32],
}

// What is known of a text and the key of a set that its header names.
enum Known {
    /// It is sealed by the key.
    Sealed,
    /// It isn't, or its header names no key of the set.
    Unsealed,
    /// Nothing.
    Untried([u8; 32]),
}

/// Looks whether each text is known to be signed by a key of its superior, the last by one of the trust anchor's keys, and
/// the leaf's by a key of its own too. It answers the first test that is wanted before any is known to fail.
pub(crate) fn first_untried(
    entries: &[SignedStatement],
    chain: &[Tried],
    keys: &JwkSet,
) -> Result<Option<Test>, Stop>
    requires some { 0 < length entries.now }
    requires texts { texts_in entries.now ≡ texts_of chain.now }
    requires split { All IsSplit entries.now }
    requires own { All IsOfItsText chain.now }
    ensures { Passes result (TestsFirst chain.now (claims_in entries.now) keys.now.keys)
        (FailsUntried chain.now (claims_in entries.now) keys.now.keys) }
{
    for i in 0..entries.len() + 1 {
        let place = i.saturating_sub(1);
        match known_by(
            &entries[place].compact,
            &chain[place],
            keys_for(entries, keys, i),
        ) {
            Known::Sealed => {},
            Known::Unsealed => return Err(Stop::Refused {
                place: place as u64,
                reason: Reason::Signature,
            }),
            Known::Untried(public) => return Ok(Some(Test {
                place: place as u64,
                public,
            })),
        }
    }
    Ok(None)
}

// The keys by one of which the seal of that number is made: the first is the leaf's own, the next one that of its superior.
fn keys_for<'a>(entries: &'a [SignedStatement], keys: &'a JwkSet, i: usize) -> &'a JwkSet
    requires some { 0 < length entries.now }
    requires within { i ≤ length entries.now }
    ensures { result.now.keys ≡ seal_keys (claims_in entries.now) keys.now.keys i }
{
    if i == 0 {
        &entries[0].statement.jwks
    } else {
        superior_keys(entries, keys, i - 1)
    }
}

fn known_by(compact: &Compact, tried: &Tried, set: &JwkSet) -> Known
    requires compact { IsCompact tried.now.text compact.now }
    requires own { IsOfItsText tried.now }
    ensures { IsKnown set.now.keys tried.now result }
{
    let Some(public) = signing_key(compact, set) else {
        return Known::Unsealed;
    };
    if has_seal(tried, &public) {
        Known::Sealed
    } else if has_miss(tried, &public) {
        Known::Unsealed
    } else {
        Known::Untried(public)
    }
}

fn has_seal(tried: &Tried, public: &[u8; 32]) -> bool
    requires { IsOfItsText tried.now }
    ensures stands { IsTrue result ↔ Contains tried.now.seals (pair_of tried.now public.now) }
    ensures sealed { IsTrue result → IsSealed (pair_of tried.now public.now) }
{
    for seal in tried.seals.as_slice() {
        if seal.public() == *public {
            return true;
        }
    }
    false
}

fn has_miss(tried: &Tried, public: &[u8; 32]) -> bool
    requires { IsOfItsText tried.now }
    ensures stands { IsTrue result ↔ Contains tried.now.misses (pair_of tried.now public.now) }
    ensures unsealed { IsTrue result → IsUnsealed (pair_of tried.now public.now) }
{
    for miss in tried.misses.as_slice() {
        if miss.public() == *public {
            return true;
        }
    }
    false
}
