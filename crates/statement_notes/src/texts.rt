// Texts that are no entity statements.

use crate::claims::explain_payload;
use base64url::{decode, decode_32};
use entity_statement::{STATEMENT_TYPE, Statement};
use fed_base::{Alg, Duplicate, Text};
use fed_json::{object_members, read_tree, text_at};
use jws_form::{Compact, FormFault, algorithm_name, split};
use plain_notes::{Notes, Sentence};
use std::alloc::Global;

/// Says behind `about` why the text isn't an entity statement.
pub fn explain_text(alloc: Global, about: Sentence, text: &[u8], notes: &mut Notes) {
    match split(alloc, text) {
        Ok(compact) => explain_compact(alloc, about, &compact, notes),
        Err(fault) => explain_form(alloc, about, text, fault, notes),
    }
}

fn explain_compact(alloc: Global, about: Sentence, compact: &Compact, notes: &mut Notes) {
    let typ = match &compact.typ {
        Some(typ) => typ.as_slice(),
        None => b"missing",
    };
    if typ == STATEMENT_TYPE {
        explain_payload(alloc, about, compact.payload.as_slice(), notes);
    } else {
        notes.say(
            about
                .and(b"the header's typ is ")
                .and(typ)
                .and(b"; that of an entity statement is entity-statement+jwt"),
        );
    }
}

fn explain_form(alloc: Global, about: Sentence, text: &[u8], fault: FormFault, notes: &mut Notes) {
    match fault {
        FormFault::Algorithm => explain_algorithm(alloc, about, text, notes),
        FormFault::Memory => {},
        FormFault::Base64(_) if !front_fault(text).is_empty() => notes.say(about.and(front_fault(
            text,
        ))),
        FormFault::Base64(part) if !is_json(text) => {
            notes.say(with_wrong_byte(alloc, about.and(part_fault(part)), text));
        }
        _ => notes.say(about.and(form_fault(text, fault))),
    }
}

// Behind the part that isn't base64url: the first byte of the text that stands in none, where there is one.
fn with_wrong_byte(alloc: Global, sentence: Sentence, text: &[u8]) -> Sentence {
    let wrong = text
        .iter()
        .enumerate()
        .find(|entry| !is_of_compact(*entry.1));
    match wrong {
        Some((place, byte)) => sentence
            .and(b": byte ")
            .and_number(alloc, place as u64)
            .and(byte_name(*byte)),
        None => sentence,
    }
}

// Whether the byte is a character of base64url, or the full stop between two parts.
fn is_of_compact(byte: u8) -> bool {
    byte.is_ascii_alphanumeric() || byte == b'-' || byte == b'_' || byte == b'.'
}

// What a byte is that stands in no base64url.
fn byte_name(byte: u8) -> &'static [u8] {
    match byte {
        b'\n' | b'\r' => b" is a line end",
        b' ' | b'\t' => b" is a space",
        b'=' => b" is the padding =",
        b'+' | b'/' => b" is of another alphabet of base64, which has + for - and / for _",
        b'"' | b'\'' => b" is a quotation mark",
        0 => b" is the byte 0",
        128..=255 => b" isn't ASCII",
        _ => b" isn't one of its characters",
    }
}

fn form_fault(text: &[u8], fault: FormFault) -> &'static [u8] {
    match fault {
        FormFault::TooLong => b"the text has more than 262,144 bytes",
        FormFault::Header => b"the header isn't a JSON object whose alg, typ and kid are texts",
        FormFault::Crit => b"the header has crit, extensions of which fed knows none",
        _ => parts_fault(text),
    }
}

fn part_fault(part: u8) -> &'static [u8] {
    match part {
        0 => b"the header isn't base64url without padding",
        1 => b"the payload isn't base64url without padding",
        _ => b"the signature isn't base64url without padding",
    }
}

fn parts_fault(text: &[u8]) -> &'static [u8] {
    if text.is_empty() {
        b"the text is empty"
    } else if is_json(text) {
        b"the text begins as JSON does, and is no signed text"
    } else if !front_fault(text).is_empty() {
        front_fault(text)
    } else {
        b"the text isn't three parts with full stops between them"
    }
}

// What a text is by its first bytes, where it isn't a signed one, or nothing.
fn front_fault(text: &[u8]) -> &'static [u8] {
    if begins_with_bearer(text) {
        b"the text begins with Bearer, which is a word of HTTP; leave it away"
    } else if text.starts_with(b"\"") {
        b"the text begins with a quotation mark; leave the quotation marks away"
    } else if text.starts_with(b"\xef\xbb\xbf") {
        b"the text begins with a byte order mark; leave it away"
    } else if text.starts_with(b"<") {
        b"the text looks like HTML, and is no signed text"
    } else if text.starts_with(b"-----BEGIN") {
        b"the text looks like PEM, and is no signed text"
    } else {
        b""
    }
}

fn begins_with_bearer(text: &[u8]) -> bool {
    text.starts_with(b"Bearer ") || text.starts_with(b"bearer ")
}

// Whether the text begins as a JSON object or list does.
fn is_json(text: &[u8]) -> bool {
    text.starts_with(b"{") || text.starts_with(b"[")
}

fn explain_algorithm(alloc: Global, about: Sentence, text: &[u8], notes: &mut Notes) {
    let about = match algorithm_of(alloc, text) {
        Some(algorithm) => about
            .and(b"this text is signed with ")
            .and(algorithm.as_slice()),
        None => about.and(b"the header names no alg"),
    };
    notes.say(
        about
            .and(b"; fed checks ")
            .and(algorithm_name(Alg::Small))
            .and(b" or ")
            .and(algorithm_name(Alg::Fast)),
    );
}

// The `alg` of the text's header.
fn algorithm_of(alloc: Global, text: &[u8]) -> Option<Text> {
    let header = text.split(|byte| *byte == b'.').next()?;
    match decode(alloc, header) {
        Ok(Some(header)) => algorithm_in(alloc, header.as_slice()),
        _ => None,
    }
}

// The `alg` of a header, in its bytes.
fn algorithm_in(alloc: Global, header: &[u8]) -> Option<Text> {
    match read_tree(alloc, header) {
        Ok(tree) => copy_of(alloc, text_at(object_members(&tree), b"alg")),
        Err(_) => None,
    }
}

fn copy_of(alloc: Global, text: Option<&Text>) -> Option<Text> {
    text?.copy(alloc).ok()
}

/// Says why the text isn't a configuration that verifies under the public key that was given, where one was.
pub fn explain_verify(alloc: Global, key: Option<&[u8; 32]>, text: &[u8], notes: &mut Notes) {
    let about = Sentence::of(alloc, b"standard input: ");
    match split(alloc, text) {
        Ok(compact) => explain_parts(alloc, about, key, &compact, notes),
        Err(fault) => explain_form(alloc, about, text, fault, notes),
    }
}

fn explain_parts(
    alloc: Global,
    about: Sentence,
    key: Option<&[u8; 32]>,
    compact: &Compact,
    notes: &mut Notes,
) {
    match Statement::read(alloc, compact) {
        Ok(statement) => {
            explain_read(about, key, compact, &statement, notes);
            drop(statement);
        }
        Err(_) => explain_compact(alloc, about, compact, notes),
    }
}

// Whether the bytes of what was given as a key are those of the text's kid, which is a thumbprint as a rule (RFC 7638).
fn is_kid(key: Option<&[u8; 32]>, compact: &Compact) -> bool {
    match (key, &compact.kid) {
        (Some(key), Some(kid)) => decode_32(kid.as_slice()).is_some_and(|bytes| bytes == *key),
        _ => false,
    }
}

fn explain_read(
    about: Sentence,
    key: Option<&[u8; 32]>,
    compact: &Compact,
    statement: &Statement,
    notes: &mut Notes,
) {
    if statement.iss != statement.sub {
        notes.say(
            about
                .and(b"iss is ")
                .and(statement.iss.text())
                .and(b" and sub is ")
                .and(statement.sub.text())
                .and(b"; in a configuration they are equal"),
        );
        return;
    }
    if is_kid(key, compact) {
        notes.say(about.and(
            b"what was given is the text's kid, the name of a key; verify takes the key, the member pub of a JSON Web Key",
        ));
        return;
    }
    let kid = match &compact.kid {
        Some(kid) => kid.as_slice(),
        None => b"none",
    };
    notes.say(
        about
            .and(b"the ")
            .and(algorithm_name(compact.alg))
            .and(b" signature doesn't verify under the key that was given; the kid of the text is ")
            .and(kid),
    );
}
