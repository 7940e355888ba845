// Texts taken apart.

ghost use Rattle.std.specs.Prelude.{◌≡◌, ◌∷◌, ◌++◌, length, take, IfErr, IfOk, IfSome, Ok};
ghost use Rattle.jws_form.specs.declared.compact.Compact.{Compact};
ghost use Rattle.jws_form.specs.Compact.{IsCompact, stop};
ghost use Rattle.jws_form.specs.Faults.{HasFault};
ghost use Rattle.jws_form.specs.Splitting.{Gives, HasForms, long_splitting, splitting, compact_of};

use crate::header::read_header;
use crate::parts::{Parts, part_bytes, three_parts};
use crate::{Compact, FormFault};
use fed_base::{Duplicate, Memory, Text};
use std::alloc::Global;

// How many bytes a text has at most.
const MAX_BYTES: usize = 262_144;

/// Takes a compact text apart (RFC 7515 section 5.2). It answers the parts exactly where the text is one, and otherwise
/// its first fault, in the order of [`FormFault`].
pub fn split(alloc: Global, text: &[u8]) -> Result<Compact, FormFault>
    ensures exact { Gives result (splitting text.now) }
    ensures found { IfOk result (IsCompact text.now) }
    ensures refused { IfErr result (HasFault text.now) }
    ensures only { (c : Compact) → IsCompact text.now c → Gives result (Ok c) }
{
    split_as(alloc, text, None)
}

/// The same of a text that shares its bytes ([`Text::shared`]): `whole` and `signed` share them too.
pub fn split_text(alloc: Global, text: &Text) -> Result<Compact, FormFault>
    ensures exact { Gives result (splitting text.now) }
    ensures found { IfOk result (IsCompact text.now) }
    ensures refused { IfErr result (HasFault text.now) }
    ensures only { (c : Compact) → IsCompact text.now c → Gives result (Ok c) }
{
    split_as(alloc, text.as_slice(), Some(text))
}

/// The same of a text of any length, as a resolver's reply is, which holds the texts of a chain (OpenID Federation 1.0 section 8.3.2). It
/// never answers `TooLong`.
#[tactic(auto, unfolding(crate::specs::Splitting::long_splitting))]
pub fn split_long(alloc: Global, text: &[u8]) -> Result<Compact, FormFault>
    ensures exact { Gives result (long_splitting text.now) }
{
    match three_parts(text) {
        Some(parts) => read_parts(alloc, text, None, &parts),
        None => Err(FormFault::Parts),
    }
}

// The same, with the text whose bytes are shared, where there is one.
#[tactic(auto, unfolding(crate::specs::Splitting::splitting))]
fn split_as(alloc: Global, text: &[u8], kept: Option<&Text>) -> Result<Compact, FormFault>
    requires { IfSome kept (λ whole. whole.now ≡ text.now) }
    ensures exact { Gives result (splitting text.now) }
    ensures found { IfOk result (IsCompact text.now) }
    ensures refused { IfErr result (HasFault text.now) }
    ensures only { (c : Compact) → IsCompact text.now c → Gives result (Ok c) }
{
    if text.len() > MAX_BYTES {
        return Err(FormFault::TooLong);
    }
    match three_parts(text) {
        Some(parts) => read_parts(alloc, text, kept, &parts),
        None => Err(FormFault::Parts),
    }
}

// The whole text, whose bytes copies share.
fn whole_of(alloc: Global, text: &[u8], kept: Option<&Text>) -> Result<Text, Memory>
    requires { IfSome kept (λ whole. whole.now ≡ text.now) }
    ensures { IfOk result (λ whole. whole ≡ text.now) }
{
    let whole = match kept {
        Some(whole) => whole.copy(alloc)?,
        None => Text::of(alloc, text)?,
    };
    Ok(whole.shared(alloc))
}

// What the three parts of a text give.
#[tactic(auto, unfolding(crate::specs::Splitting::compact_of))]
fn read_parts(
    alloc: Global,
    text: &[u8],
    kept: Option<&Text>,
    parts: &Parts<'_>,
) -> Result<Compact, FormFault>
    requires kept { IfSome kept (λ whole. whole.now ≡ text.now) }
    requires signed { parts.now.signed.now ≡ parts.now.header.now ++ stop ∷ parts.now.payload.now }
    requires front { take (length parts.now.signed.now) text.now ≡ parts.now.signed.now }
    ensures exact { Gives result (compact_of text.now
        (parts.now.header.now, parts.now.payload.now, parts.now.signature.now)) }
    ensures forms { IfOk result HasForms }
{
    let header = part_bytes(alloc, 0, parts.header)?;
    let payload = part_bytes(alloc, 1, parts.payload)?;
    let signature = part_bytes(alloc, 2, parts.signature)?;
    let names = read_header(alloc, header.as_slice())?;
    let whole = whole_of(alloc, text, kept)?;
    let mut signed = whole.copy(alloc)?;
    signed.truncate(parts.signed.len());
    Ok(Compact {
        whole,
        alg: names.alg,
        typ: names.typ,
        kid: names.kid,
        payload,
        signed,
        signature,
    })
}
