// What a person reads of a text that isn't JSON.

use crate::scan::{Misfit, Wanted, misfit_in, word_at};
use plain_notes::{Notes, Sentence};
use serde_json::Value;
use std::alloc::Global;

// How long a word is at most that is shown.
const MOST_SHOWN: usize = 16;

/// Says behind `about` why a text isn't JSON: at which line and column, both from 1 on and the column by characters, what was expected
/// there, and what stands there. Of what stands there a word of at most 16 letters is shown, or one byte.
pub fn explain_no_json(alloc: Global, about: Sentence, text: &[u8], notes: &mut Notes) {
    match kind_of_file(text) {
        Some(kind) => notes.say(about.and(kind)),
        None => explain_misfit(alloc, about, text, notes),
    }
}

// What a file is that isn't JSON from its first byte on.
fn kind_of_file(text: &[u8]) -> Option<&'static [u8]> {
    if text.iter().all(|byte| byte.is_ascii_whitespace()) {
        Some(b" is empty")
    } else if text.starts_with(b"\xef\xbb\xbf") {
        Some(
            b" begins with a byte order mark, which no JSON text has; store it as UTF-8 without one",
        )
    } else if text.starts_with(b"\xff\xfe") || text.starts_with(b"\xfe\xff") {
        Some(b" is UTF-16; store it as UTF-8 without a byte order mark")
    } else if text.starts_with(b"eyJ") {
        Some(b" is a signed text and not JSON")
    } else if text.starts_with(b"-----BEGIN") {
        Some(b" is PEM and not JSON")
    } else {
        None
    }
}

fn explain_misfit(alloc: Global, begun: Sentence, text: &[u8], notes: &mut Notes) {
    match misfit_in(alloc, text) {
        Ok(Some(misfit)) => {
            let said = placed(alloc, begun, text, misfit.at);
            notes.say(with_misfit(alloc, said, text, &misfit));
        }
        Ok(None) => explain_rest(alloc, begun, text, notes),
        Err(_) => {}
    }
}

// A text that has the form of JSON, and isn't read all the same.
fn explain_rest(alloc: Global, begun: Sentence, text: &[u8], notes: &mut Notes) {
    match Value::from_slice(alloc, text) {
        Ok(value) => drop(value),
        Err(error) => {
            let placed = begun
                .and(b":")
                .and_number(alloc, error.line() as u64)
                .and(b":")
                .and_number(alloc, error.column() as u64);
            notes.say(placed.and(
                b": this can't be read: bytes that aren't UTF-8, half of a surrogate pair, or a number that is too great",
            ));
        }
    }
}

// The line and the column of a place of the text.
fn placed(alloc: Global, begun: Sentence, text: &[u8], at: usize) -> Sentence {
    let mut line: u64 = 1;
    let mut column: u64 = 1;
    for byte in text.get(..at).unwrap_or(&[]) {
        if *byte == b'\n' {
            line = line.saturating_add(1);
            column = 1;
        } else if *byte & 0xc0 != 0x80 {
            column = column.saturating_add(1);
        }
    }
    begun
        .and(b":")
        .and_number(alloc, line)
        .and(b":")
        .and_number(alloc, column)
        .and(b": ")
}

fn with_misfit(alloc: Global, begun: Sentence, text: &[u8], misfit: &Misfit) -> Sentence {
    let wanted = begun.and(words_of(misfit.wanted));
    match text.get(misfit.at) {
        Some(byte) => with_hint(
            with_byte(wanted, text, misfit.at, *byte),
            misfit.wanted,
            *byte,
        ),
        None => with_end(alloc, wanted.and(b", and the text ends"), misfit.open),
    }
}

// Which bracket is open yet.
fn with_end(alloc: Global, begun: Sentence, open: u64) -> Sentence {
    if open == 0 {
        begun
    } else {
        begun
            .and(b"; a bracket of line ")
            .and_number(alloc, open)
            .and(b" is open yet")
    }
}

fn words_of(wanted: Wanted) -> &'static [u8] {
    match wanted {
        Wanted::Value | Wanted::Item => b"a value was expected",
        Wanted::FirstItem => b"a value or ] was expected",
        Wanted::FirstName => b"a member's name or } was expected",
        Wanted::Name => b"a member's name was expected",
        Wanted::Colon => b": was expected",
        Wanted::ItemEnd => b", or ] was expected",
        Wanted::MemberEnd => b", or } was expected",
        Wanted::End => b"the end of the text was expected",
        Wanted::Digit => b"a digit was expected",
        Wanted::Escape => b"one of \" \\ / b f n r t u was expected behind \\",
        Wanted::HexDigit => b"four digits of base 16 were expected behind \\u",
        Wanted::Character => b"a \" that ends the text was expected",
        Wanted::Shallower => b"no more than 127 lists and objects within one another were expected",
    }
}

// What stands there: a short word, or one byte.
fn with_byte(begun: Sentence, text: &[u8], at: usize, byte: u8) -> Sentence {
    let said = begun.and(b", and ");
    if byte == b'\n' || byte == b'\r' {
        return said.and(b"the line ends");
    }
    let word = word_at(text, at);
    let is_shown = word.iter().all(|byte| is_letter(*byte)) && word.len() <= MOST_SHOWN;
    if is_shown && word.len() > 1 {
        said.and(word).and(b" stands there")
    } else {
        said.and(&[byte]).and(b" stands there")
    }
}

fn is_letter(byte: u8) -> bool {
    byte.is_ascii_alphabetic() || byte == b'_'
}

// What was likely meant.
fn with_hint(begun: Sentence, wanted: Wanted, byte: u8) -> Sentence {
    match (wanted, byte) {
        (Wanted::Name, b'}') | (Wanted::Item, b']') => begun.and(
            b"; JSON has no comma before a bracket that closes",
        ),
        (Wanted::Character | Wanted::Escape | Wanted::HexDigit | Wanted::Shallower, _) => begun,
        (_, b'/' | b'#') => begun.and(b"; JSON has no comments"),
        (_, b'\'') => begun.and(b"; names and texts stand between quotation marks, \""),
        (Wanted::ItemEnd | Wanted::MemberEnd, b'"' | b'{' | b'[') => begun.and(
            b"; a comma is missing before it",
        ),
        (Wanted::Name | Wanted::FirstName, _) => begun.and(
            b"; names stand between quotation marks, \"",
        ),
        (Wanted::Value | Wanted::Item | Wanted::FirstItem, _) if is_letter(byte) => begun.and(
            b"; texts stand between quotation marks, \"",
        ),
        _ => begun,
    }
}
