// Texts put together.

ghost use Rattle.std.specs.Prelude.{◌≡◌, ◌≤◌, List, ℕ, Option, IfOk, length};
ghost use Rattle.fed_base.specs.declared.algorithm.Alg.{Alg};
ghost use Rattle.fed_json.specs.Compact.{compact};
ghost use Rattle.fed_json.specs.Forms.{IsWhole, nesting};
ghost use Rattle.jws_form.specs.declared.compact.Compact.{Compact};
ghost use Rattle.jws_form.specs.Compact.{IsCompact, IsJoined, IsSigningInput, joined, max_bytes, signing_input_of};
ghost use Rattle.jws_form.specs.Header.{IsHeader};

use crate::parts::STOP;
use base64::engine::general_purpose::URL_SAFE_NO_PAD;
use fed_base::{Memory, Text};
use fed_json::{Json, write_tree};
use std::alloc::Global;

/// What the signature of a text with this header and payload is over (RFC 7515 section 5.1): the base64url of the
/// header's compact text, a full stop, and the base64url of the payload. A header of the right form that nests at most
/// 127 deep is read again from it.
pub fn signing_input(alloc: Global, header: &Json, payload: &[u8]) -> Result<Text, Memory>
    requires { IsWhole header.now }
    ensures text { IfOk result (λ text. text ≡ signing_input_of (compact header.now) payload.now) }
    ensures reads { (alg : Alg) (typ kid : Option (List ℕ)) → IsHeader header.now alg typ kid
        → nesting header.now ≤ 127 → IfOk result (λ text. IsSigningInput text payload.now alg typ kid) }
{
    let header = write_tree(alloc, header)?;
    encoded_parts(alloc, header.as_slice(), payload)
}

// The first two parts of a text, joined by a full stop. Both are encoded into the one text, where `base64url::encode`
// would make a text of each and copy the payload's once more.
#[tactic(auto, unfolding(base64url::specs::Base64url::base64url))]
fn encoded_parts(alloc: Global, header: &[u8], payload: &[u8]) -> Result<Text, Memory>
    ensures { IfOk result (λ text. text ≡ signing_input_of header.now payload.now) }
{
    let mut text = String::new(alloc);
    URL_SAFE_NO_PAD.encode_string(header, &mut text)?;
    text.push('.')?;
    URL_SAFE_NO_PAD.encode_string(payload, &mut text)?;
    Ok(Text::from_vec(text.into_bytes()))
}

/// The compact text of a signing input and its signature (RFC 7515 section 7.1): the input, a full stop, and the
/// base64url of the signature. It holds these whatever its length; [`split`](crate::split) takes it apart into them where
/// it has at most 262,144 bytes, and what that takes apart is joined again to the same text.
pub fn join(alloc: Global, signed: &Text, signature: &[u8]) -> Result<Text, Memory>
    ensures text { IfOk result (λ text. text ≡ joined signed.now signature.now) }
    ensures splits { (payload : List ℕ) (alg : Alg) (typ kid : Option (List ℕ))
        → IsSigningInput signed.now payload alg typ kid
        → IfOk result (λ text. length text ≤ max_bytes → IsCompact text (record {
          whole = text;
          alg = alg;
          typ = typ;
          kid = kid;
          payload = payload;
          signed = signed.now;
          signature = signature.now;
        })) }
    ensures holds { (payload : List ℕ) (alg : Alg) (typ kid : Option (List ℕ))
        → IsSigningInput signed.now payload alg typ kid
        → IfOk result (λ text. IsJoined text (record {
          whole = text;
          alg = alg;
          typ = typ;
          kid = kid;
          payload = payload;
          signed = signed.now;
          signature = signature.now;
        })) }
    ensures restores { (x : List ℕ) (c : Compact) → IsCompact x c → c.signed ≡ signed.now
        → c.signature ≡ signature.now → IfOk result (λ text. text ≡ x) }
{
    let encoded = base64url::encode(alloc, signature)?;
    let (signed, encoded) = (signed.as_slice(), encoded.as_slice());
    let mut text = Vec::with_capacity(alloc, signed.len() + 1 + encoded.len())?;
    text.extend_from_slice(signed)?;
    text.push(STOP)?;
    text.extend_from_slice(encoded)?;
    Ok(Text::from_vec(text))
}
