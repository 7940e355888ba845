// Whether a reply is sealed by its resolver.

ghost use Rattle.std.specs.Prelude.{◌≡◌, ◌↔◌, IsTrue};
ghost use Rattle.sealed.specs.Seals.{named_key};
ghost use Rattle.reply_check.specs.Readings.{IsSignedBy};

use fed_base::{Ledger, Steps};
use jwk_set::JwkSet;
use jws_form::Compact;
use slh_dsa::verify;

/// Whether a compact text, whatever its length, verifies under the own key of the set that its header names.
pub(crate) fn is_signed<L: Ledger>(compact: &Compact, set: &JwkSet, steps: &mut Steps<L>) -> bool
    ensures { IsTrue result ↔ IsSignedBy compact.now set.now.keys }
{
    match named_key(compact, set) {
        Some(public) => verify(
            compact.alg,
            &public,
            compact.signed.as_slice(),
            compact.signature.as_slice(),
            steps,
        ),
        None => false,
    }
}

// The key that the header names.
fn named_key(compact: &Compact, set: &JwkSet) -> Option<[u8; 32]>
    ensures { result ≡ named_key compact.now set.now.keys }
{
    match &compact.kid {
        Some(kid) => set.key_of(kid, compact.alg),
        None => None,
    }
}
