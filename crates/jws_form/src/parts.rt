// The parts between full stops.

ghost use Rattle.std.specs.Prelude.{◌≡◌, ◌∷◌, ◌++◌, [], length, take, IfOk, IfSome, MatchOption, option_map};
ghost use Rattle.base64.specs.GeneralPurpose.{IsBytes};
ghost use Rattle.jws_form.specs.Compact.{stop};
ghost use Rattle.jws_form.specs.Splitting.{Gives, bytes_of, parts_of, three_of};

use crate::FormFault;
use fed_base::Text;
use std::alloc::Global;

/// The full stop between the parts (RFC 7515 section 7.1).
pub(crate) const STOP: u8 = b'.';

/// The three parts of a text, as they stand in it.
#[derive(Drop)]
pub(crate) struct Parts<'a> {
    pub header: &'a [u8],
    pub payload: &'a [u8],
    pub signature: &'a [u8],
    /// The first two and the full stop between them.
    pub signed: &'a [u8],
}

// What stands before the first full stop of a text, and behind it.
fn split_once(text: &[u8]) -> Option<(&[u8], &[u8])>
    ensures { MatchOption result (parts_of text.now ≡ text.now ∷ [])
        (λ p. parts_of text.now ≡ p.0.now ∷ parts_of p.1.now) }
{
    match text.iter().position(|&byte| byte == STOP) {
        Some(at) => Some((&text[..at], &text[at + 1..])),
        None => None,
    }
}

/// The parts of a text that has exactly two full stops.
pub(crate) fn three_parts(text: &[u8]) -> Option<Parts<'_>>
    ensures parts { option_map (λ p. (p.header.now, p.payload.now, p.signature.now)) result
        ≡ three_of (parts_of text.now) }
    ensures signed { IfSome result (λ p. p.signed.now ≡ p.header.now ++ stop ∷ p.payload.now) }
    ensures front { IfSome result (λ p. take (length p.signed.now) text.now ≡ p.signed.now) }
{
    let (header, rest) = split_once(text)?;
    let (payload, signature) = split_once(rest)?;
    let None = split_once(signature) else {
        return None;
    };
    let signed = &text[..header.len() + 1 + payload.len()];
    Some(Parts {
        header,
        payload,
        signature,
        signed,
    })
}

/// The bytes of the part with this number.
#[tactic(auto, unfolding(crate::specs::Splitting::bytes_of))]
pub(crate) fn part_bytes(alloc: Global, number: u8, part: &[u8]) -> Result<Text, FormFault>
    ensures exact { Gives result (bytes_of number part.now) }
    ensures bytes { IfOk result (λ text. IsBytes text) }
{
    base64url::decode(alloc, part)?.ok_or(FormFault::Base64(number))
}
