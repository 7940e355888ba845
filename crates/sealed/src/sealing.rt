// Texts that are signed.

ghost use Rattle.std.specs.Prelude.{◌≡◌, ◌≤◌, length, Some, IfOk};
ghost use Rattle.std.specs.Str.{IsUtf8};
ghost use Rattle.fed_json.specs.Forms.{IsWhole, nesting};
ghost use Rattle.fed_json.specs.Compact.{compact};
ghost use Rattle.fed_json.specs.Reading.{tree_in};
ghost use Rattle.jws_form.specs.Compact.{max_bytes};
ghost use Rattle.jws_form.specs.Header.{IsHeader};
ghost use Rattle.sealed.specs.Sealing.{HasParts, IsObject, IsSealedFor, IsSignedAs, header_of, sealed_payload, sealed_text};

use crate::signs::{Alone, Signs};
use fed_base::{Alg, Memory, Seq, Text};
use fed_json::{Json, text_member, write_tree};
use jwk_set::thumbprint;
use jws_form::{algorithm_name, join, signing_input};
use slh_dsa::{KeyPair, MOST_SIGNATURE_BYTES, signature_bytes};
use std::alloc::Global;

/// Signs claims as a text of that type (RFC 7515 section 5.1): [`seal_payload`] of the claims as compact JSON, which read
/// back as these claims where they are nested at most 127 deep.
pub fn seal(alloc: Global, keys: &KeyPair, typ: &Text, claims: &Json) -> Result<Text, Memory>
    requires typ { IsUtf8 typ.now }
    requires whole { IsWhole claims.now }
    requires object { IsObject claims.now }
    ensures text { IfOk result (λ text. text ≡ sealed_text keys.now typ.now claims.now) }
    ensures sealed { IfOk result (IsSealedFor keys.now) }
    ensures splits { IfOk result (λ text. length text ≤ max_bytes → HasParts keys.now typ.now (compact claims.now) text) }
    ensures signed { IfOk result (IsSignedAs keys.now typ.now (compact claims.now)) }
    ensures reads_back { IfOk result (λ _. nesting claims.now ≤ 127 → tree_in (compact claims.now) ≡ Some claims.now) }
{
    let payload = write_tree(alloc, claims)?;
    seal_payload(alloc, keys, typ, payload.as_slice())
}

/// Signs a payload as a text of that type (RFC 7515 section 5.1). The header, in compact JSON, has the key's algorithm as
/// `alg`, the signer's thumbprint as `kid`, and `typ`. A text of at most 262,144 bytes is taken apart into these, and is
/// sealed by each set in which the signer's key has its thumbprint.
pub fn seal_payload(
    alloc: Global,
    keys: &KeyPair,
    typ: &Text,
    payload: &[u8],
) -> Result<Text, Memory>
    requires typ { IsUtf8 typ.now }
    ensures text { IfOk result (λ text. text ≡ sealed_payload keys.now typ.now payload.now) }
    ensures sealed { IfOk result (IsSealedFor keys.now) }
    ensures splits { IfOk result (λ text. length text ≤ max_bytes → HasParts keys.now typ.now payload.now text) }
    ensures signed { IfOk result (IsSignedAs keys.now typ.now payload.now) }
{
    seal_signed(alloc, keys, typ, payload, &Alone)
}

/// As [`seal_payload`], with the signature made as the caller wants it: the header, what is signed, and the text around it.
pub fn seal_signed<S: Signs>(
    alloc: Global,
    keys: &KeyPair,
    typ: &Text,
    payload: &[u8],
    signer: &S,
) -> Result<Text, Memory>
    requires typ { IsUtf8 typ.now }
    requires ready { S.ready signer.now }
    ensures text { IfOk result (λ text. text ≡ sealed_payload keys.now typ.now payload.now) }
    ensures sealed { IfOk result (IsSealedFor keys.now) }
    ensures splits { IfOk result (λ text. length text ≤ max_bytes → HasParts keys.now typ.now payload.now text) }
    ensures signed { IfOk result (IsSignedAs keys.now typ.now payload.now) }
{
    let alg = keys.alg();
    let kid = thumbprint(alloc, alg, &keys.public())?;
    let header = header(alloc, alg, &kid, typ)?;
    let signed = signing_input(alloc, &header, payload)?;
    let mut buffer = [0; MOST_SIGNATURE_BYTES];
    let signature = &mut buffer[..signature_bytes(alg)];
    signer.sign(keys, signed.as_slice(), signature);
    join(alloc, &signed, signature)
}

// The header of a text that the key of that name signs: `alg`, `kid` and `typ`.
fn header(alloc: Global, alg: Alg, kid: &Text, typ: &Text) -> Result<Json, Memory>
    requires kid { IsUtf8 kid.now }
    requires typ { IsUtf8 typ.now }
    ensures tree { IfOk result (λ tree. tree ≡ header_of alg kid.now typ.now) }
    ensures whole { IfOk result IsWhole }
    ensures names { IfOk result (λ tree. IsHeader tree alg (Some typ.now) (Some kid.now)) }
    ensures shallow { IfOk result (λ tree. nesting tree ≤ 127) }
{
    let mut members = Seq::new(alloc);
    members.push(text_member(alloc, b"alg", algorithm_name(alg))?)?;
    members.push(text_member(alloc, b"kid", kid.as_slice())?)?;
    members.push(text_member(alloc, b"typ", typ.as_slice())?)?;
    Ok(Json::Object(members))
}
