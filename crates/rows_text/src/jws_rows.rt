// Base64url, and texts that are taken apart and put together.

use crate::spelling::{bytes_of, cut, number, told, word};
use fed_base::{Duplicate, Memory, Text};
use fed_json::{Json, is_whole, read_tree};
use jws_form::{Compact, FormFault, algorithm_name};
use std::alloc::Global;

/// The bytes whose base64url the text is, or that it is that of none. Encoded again they are the text.
pub fn decode(alloc: Global, given: &str) -> Result<Text, Memory> {
    let text = bytes_of(alloc, given)?;
    match base64url::decode(alloc, text.as_slice())? {
        None => word(alloc, "none"),
        Some(bytes) => encoded_again(alloc, text.as_slice(), bytes),
    }
}

fn encoded_again(alloc: Global, text: &[u8], bytes: Text) -> Result<Text, Memory> {
    let again = base64url::encode(alloc, bytes.as_slice())?;
    if again.as_slice() == text {
        bytes.copy(alloc)
    } else {
        word(alloc, "another text")
    }
}

/// The same where there are 32 bytes.
pub fn decode_32(alloc: Global, given: &str) -> Result<Text, Memory> {
    match base64url::decode_32(given.as_bytes()) {
        None => word(alloc, "none"),
        Some(bytes) => if base64url::encode_32(&bytes).as_slice() == given.as_bytes() {
            Text::of(alloc, &bytes)
        } else {
            word(alloc, "another text")
        },
    }
}

/// The parts of a compact text, or its first fault.
pub fn split(alloc: Global, given: &str) -> Result<Text, Memory> {
    let text = bytes_of(alloc, given)?;
    match jws_form::split(alloc, text.as_slice()) {
        Ok(compact) => {
            let parts = copied_parts(alloc, &compact);
            drop(compact);
            parts
        },
        Err(fault) => told(alloc, &fault),
    }
}

fn copied_parts(alloc: Global, compact: &Compact) -> Result<Text, Memory> {
    let copy = compact.copy(alloc)?;
    let parts = parts(alloc, &copy);
    drop(copy);
    parts
}

fn parts(alloc: Global, compact: &Compact) -> Result<Text, Memory> {
    let mut out = Text::of(alloc, algorithm_name(compact.alg))?;
    add_part(&mut out, or_dash(&compact.typ))?;
    add_part(&mut out, or_dash(&compact.kid))?;
    add_part(&mut out, compact.payload.as_slice())?;
    add_part(&mut out, compact.signature.as_slice())?;
    add_part(&mut out, compact.signed.as_slice())?;
    add_part(&mut out, compact.whole.as_slice())?;
    Ok(out)
}

fn add_part(out: &mut Text, part: &[u8]) -> Result<(), Memory> {
    out.push(b' ')?;
    out.append(part)
}

fn or_dash(text: &Option<Text>) -> &[u8] {
    match text {
        Some(text) => text.as_slice(),
        None => b"-",
    }
}

fn add_long(text: &mut Text, count: u64, rest: &str) -> Result<(), Memory> {
    text.push(b'.')?;
    for _ in 0..count {
        text.push(b'A')?;
    }
    text.append(rest.as_bytes())
}

/// Whether a text is taken apart whose payload has that many characters: a header, how many, and what stands behind them.
pub fn long(alloc: Global, given: &str) -> Result<Text, Memory> {
    let (header, given) = cut(given);
    let (count, rest) = cut(given);
    let mut text = Text::of(alloc, header.as_bytes())?;
    add_long(&mut text, number(count), rest)?;
    match jws_form::split(alloc, text.as_slice()) {
        Ok(compact) => {
            drop(compact);
            word(alloc, "three parts")
        },
        Err(fault) => told(alloc, &fault),
    }
}

/// The text with that header, payload and signature.
pub fn join(alloc: Global, given: &str) -> Result<Text, Memory> {
    let (header, given) = cut(given);
    let (payload, signature) = cut(given);
    let signature = bytes_of(alloc, signature)?;
    match read_tree(alloc, header.as_bytes()) {
        Ok(header) => {
            let joined = joined_parts(alloc, &header, payload.as_bytes(), signature.as_slice());
            drop(header);
            joined
        },
        Err(fault) => told(alloc, &fault),
    }
}

fn joined_parts(
    alloc: Global,
    header: &Json,
    payload: &[u8],
    signature: &[u8],
) -> Result<Text, Memory> {
    if !is_whole(header) {
        return word(alloc, "not whole");
    }
    let signed = jws_form::signing_input(alloc, header, payload)?;
    jws_form::join(alloc, &signed, signature)
}
