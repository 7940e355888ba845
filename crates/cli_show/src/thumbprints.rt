// The thumbprints of keys of any type.

ghost use Rattle.std.specs.Prelude.{◌≡◌, ◌++◌, IfOk, OnOk, codes};
ghost use Rattle.sha2.specs.Sha256.{sha256};
ghost use Rattle.cli_show.specs.KeyViews.{covered_akp, covered_by, covered_ec, covered_okp, covered_rsa, thumbprint_in};

use base64url::encode;
use fed_base::{Memory, Text};
use fed_json::{Member, text_at};
use sha2::{Digest, Sha256};
use std::alloc::Global;

/// The thumbprint of a key with these members (RFC 7638), or `None` where it isn't known what a thumbprint of its type covers, or a member
/// that it covers isn't a text.
#[tactic(auto, unfolding(crate::specs::KeyViews::thumbprint_in))]
pub(crate) fn thumbprint_in(alloc: Global, members: &[Member]) -> Result<Option<Text>, Memory>
    ensures { IfOk result (λ thumbprint. thumbprint ≡ thumbprint_in members.now) }
{
    let Some(kty) = text_at(members, b"kty") else {
        return Ok(None);
    };
    match covered_by(alloc, kty.as_slice(), members)? {
        Some(text) => Ok(Some(encode(alloc, &hashed(text.as_slice()))?)),
        None => Ok(None),
    }
}

fn hashed(text: &[u8]) -> [u8; 32]
    ensures { result ≡ sha256 text.now }
{
    let mut hasher = Sha256::new();
    hasher.update(text);
    hasher.finalize()
}

// What the thumbprint covers, by the type of the key.
fn covered_by(alloc: Global, kty: &[u8], members: &[Member]) -> Result<Option<Text>, Memory>
    ensures { IfOk result (λ text. text ≡ covered_by kty.now members.now) }
{
    if kty == b"RSA".as_slice() {
        covered_rsa(alloc, members)
    } else if kty == b"EC".as_slice() {
        covered_ec(alloc, members)
    } else if kty == b"OKP".as_slice() {
        covered_okp(alloc, members)
    } else if kty == b"AKP".as_slice() {
        covered_akp(alloc, members)
    } else {
        Ok(None)
    }
}

fn covered_rsa(alloc: Global, members: &[Member]) -> Result<Option<Text>, Memory>
    ensures { IfOk result (λ text. text ≡ covered_rsa members.now) }
{
    match (text_at(members, b"e"), text_at(members, b"n")) {
        (Some(e), Some(n)) => Ok(Some(two(
            alloc,
            b"{\"e\":\"",
            e,
            b"\",\"kty\":\"RSA\",\"n\":\"",
            n,
        )?)),
        _ => Ok(None),
    }
}

fn covered_okp(alloc: Global, members: &[Member]) -> Result<Option<Text>, Memory>
    ensures { IfOk result (λ text. text ≡ covered_okp members.now) }
{
    match (text_at(members, b"crv"), text_at(members, b"x")) {
        (Some(crv), Some(x)) => Ok(Some(two(
            alloc,
            b"{\"crv\":\"",
            crv,
            b"\",\"kty\":\"OKP\",\"x\":\"",
            x,
        )?)),
        _ => Ok(None),
    }
}

fn covered_akp(alloc: Global, members: &[Member]) -> Result<Option<Text>, Memory>
    ensures { IfOk result (λ text. text ≡ covered_akp members.now) }
{
    match (text_at(members, b"alg"), text_at(members, b"pub")) {
        (Some(alg), Some(public)) => Ok(Some(two(
            alloc,
            b"{\"alg\":\"",
            alg,
            b"\",\"kty\":\"AKP\",\"pub\":\"",
            public,
        )?)),
        _ => Ok(None),
    }
}

fn covered_ec(alloc: Global, members: &[Member]) -> Result<Option<Text>, Memory>
    ensures { IfOk result (λ text. text ≡ covered_ec members.now) }
{
    match (
        text_at(members, b"crv"),
        text_at(members, b"x"),
        text_at(members, b"y"),
    ) {
        (Some(crv), Some(x), Some(y)) => {
            let mut text = Text::new(alloc);
            append_value(&mut text, b"{\"crv\":\"", crv)?;
            append_two(
                &mut text,
                b"\",\"kty\":\"EC\",\"x\":\"",
                x,
                b"\",\"y\":\"",
                y,
            )?;
            Ok(Some(text))
        }
        _ => Ok(None),
    }
}

// Two values, each behind what stands before it, and the end of an object.
fn two(alloc: Global, before: &[u8], a: &Text, between: &[u8], b: &Text) -> Result<Text, Memory>
    ensures { IfOk result (λ text. text ≡ before.now ++ (a.now ++ (between.now ++ (b.now ++ codes "\"}")))) }
{
    let mut text = Text::new(alloc);
    append_two(&mut text, before, a, between, b)?;
    Ok(text)
}

fn append_two(
    text: &mut Text,
    before: &[u8],
    a: &Text,
    between: &[u8],
    b: &Text,
) -> Result<(), Memory>
    ensures { OnOk result (text.new ≡ text.old ++ (before.now ++ (a.now ++ (between.now ++ (b.now ++ codes "\"}"))))) }
{
    append_value(text, before, a)?;
    append_value(text, between, b)?;
    text.append(b"\"}")
}

fn append_value(text: &mut Text, before: &[u8], value: &Text) -> Result<(), Memory>
    ensures { OnOk result (text.new ≡ text.old ++ (before.now ++ value.now)) }
{
    text.append(before)?;
    text.append(value.as_slice())
}
