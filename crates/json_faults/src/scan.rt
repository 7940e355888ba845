// Where a text isn't JSON (RFC 8259).

use crate::escapes::{Escape, after_escape};
use crate::numbers::{Digits, after_digit, ends_number};
use fed_base::{Memory, Seq};
use std::alloc::Global;

// How deep lists and objects nest at most.
const MOST_DEPTH: usize = 127;

/// What stands next in a text of JSON.
#[derive(Clone, Copy, Debug, PartialEq, Eq, Drop)]
pub(crate) enum Wanted {
    /// A value.
    Value,
    /// The first item of a list, or its end.
    FirstItem,
    /// An item of a list behind a comma.
    Item,
    /// The name of the first member of an object, or its end.
    FirstName,
    /// The name of a member of an object behind a comma.
    Name,
    /// The colon behind a name.
    Colon,
    /// A comma, or the end of a list.
    ItemEnd,
    /// A comma, or the end of an object.
    MemberEnd,
    /// Nothing.
    End,
    /// A digit of a number.
    Digit,
    /// What may stand behind a reverse solidus in a string.
    Escape,
    /// A digit of base 16 in a string.
    HexDigit,
    /// A character of a string, or its end.
    Character,
    /// No more lists and objects within one another.
    Shallower,
}

/// What stands at a place of a text in place of what must.
#[derive(Clone, Copy, Debug, PartialEq, Eq, Drop)]
pub(crate) struct Misfit {
    /// Where it stands in the text, in bytes.
    pub(crate) at: usize,
    pub(crate) wanted: Wanted,
    /// The line of the innermost object or list that isn't closed there, or 0.
    pub(crate) open: u64,
}

// What is being read.
#[derive(Clone, Copy, Drop)]
enum Part {
    /// Nothing that has begun.
    Between,
    /// A string: whether a member's name, and what an escape lacks.
    Text(bool, Escape),
    Number(Digits),
    /// So many more bytes of a word.
    Word(usize),
}

// An object or a list that is open.
#[derive(Clone, Copy, Drop)]
struct Open {
    is_object: bool,
    line: u64,
}

#[derive(Drop)]
struct Scan {
    open: Seq<Open>,
    wanted: Wanted,
    part: Part,
    line: u64,
}

/// The first place at which the text isn't JSON, by its form alone: bytes that aren't UTF-8 and numbers that are too great aren't looked
/// at.
pub(crate) fn misfit_in(alloc: Global, text: &[u8]) -> Result<Option<Misfit>, Memory> {
    let mut scan = Scan {
        open: Seq::new(alloc),
        wanted: Wanted::Value,
        part: Part::Between,
        line: 1,
    };
    for (at, byte) in text.iter().enumerate() {
        if let Some(wanted) = step(&mut scan, text, at, *byte)? {
            return Ok(Some(misfit_of(&scan, at, wanted)));
        }
        if *byte == b'\n' {
            scan.line = scan.line.saturating_add(1);
        }
    }
    Ok(match wanted_at_end(&scan) {
        Some(wanted) => Some(misfit_of(&scan, text.len(), wanted)),
        None => None,
    })
}

fn misfit_of(scan: &Scan, at: usize, wanted: Wanted) -> Misfit {
    let open = match scan.open.as_slice() {
        [.., last] => last.line,
        [] => 0,
    };
    Misfit { at, wanted, open }
}

// What is wanted where the text ends, if anything.
fn wanted_at_end(scan: &Scan) -> Option<Wanted> {
    match scan.part {
        Part::Text(_, _) => Some(Wanted::Character),
        Part::Number(digits) if !ends_number(digits) => Some(Wanted::Digit),
        Part::Number(_) if scan.open.is_empty() => None,
        Part::Number(_) => Some(behind_value(scan)),
        Part::Between | Part::Word(_) => match scan.wanted {
            Wanted::End => None,
            wanted => Some(wanted),
        },
    }
}

// What stands behind a value.
fn behind_value(scan: &Scan) -> Wanted {
    match scan.open.as_slice() {
        [.., last] => if last.is_object {
            Wanted::MemberEnd
        } else {
            Wanted::ItemEnd
        },
        [] => Wanted::End,
    }
}

// Reads one more byte, or tells what must stand in its place.
fn step(scan: &mut Scan, text: &[u8], at: usize, byte: u8) -> Result<Option<Wanted>, Memory> {
    match scan.part {
        Part::Between => between(scan, text, at, byte),
        Part::Text(is_name, escape) => Ok(inside(scan, is_name, escape, byte)),
        Part::Number(digits) => number(scan, digits, text, at, byte),
        Part::Word(rest) => {
            scan.part = if rest <= 1 {
                Part::Between
            } else {
                Part::Word(rest - 1)
            };
            Ok(None)
        }
    }
}

// A byte of a string.
fn inside(scan: &mut Scan, is_name: bool, escape: Escape, byte: u8) -> Option<Wanted> {
    if escape == Escape::Nothing && byte == b'"' {
        scan.part = Part::Between;
        scan.wanted = if is_name {
            Wanted::Colon
        } else {
            behind_value(scan)
        };
        return None;
    }
    match after_escape(escape, byte) {
        Ok(next) => {
            scan.part = Part::Text(is_name, next);
            None
        }
        Err(wanted) => Some(wanted),
    }
}

// A byte of a number, or the one behind it.
fn number(
    scan: &mut Scan,
    digits: Digits,
    text: &[u8],
    at: usize,
    byte: u8,
) -> Result<Option<Wanted>, Memory> {
    if let Some(next) = after_digit(digits, byte) {
        scan.part = Part::Number(next);
        return Ok(None);
    }
    if !ends_number(digits) {
        return Ok(Some(Wanted::Digit));
    }
    scan.part = Part::Between;
    scan.wanted = behind_value(scan);
    between(scan, text, at, byte)
}

// A byte behind which nothing has begun.
fn between(scan: &mut Scan, text: &[u8], at: usize, byte: u8) -> Result<Option<Wanted>, Memory> {
    if matches!(byte, b' ' | b'\t' | b'\n' | b'\r') {
        return Ok(None);
    }
    match scan.wanted {
        Wanted::FirstName if byte == b'}' => Ok(close(scan)),
        Wanted::FirstItem if byte == b']' => Ok(close(scan)),
        Wanted::FirstName | Wanted::Name => Ok(name(scan, byte)),
        Wanted::Value | Wanted::FirstItem | Wanted::Item => value(scan, text, at, byte),
        Wanted::Colon if byte == b':' => Ok(go_on(scan, Wanted::Value)),
        Wanted::MemberEnd if byte == b',' => Ok(go_on(scan, Wanted::Name)),
        Wanted::ItemEnd if byte == b',' => Ok(go_on(scan, Wanted::Item)),
        Wanted::MemberEnd if byte == b'}' => Ok(close(scan)),
        Wanted::ItemEnd if byte == b']' => Ok(close(scan)),
        wanted => Ok(Some(wanted)),
    }
}

fn go_on(scan: &mut Scan, wanted: Wanted) -> Option<Wanted> {
    scan.wanted = wanted;
    None
}

// The innermost object or list is done.
fn close(scan: &mut Scan) -> Option<Wanted> {
    let _ = scan.open.pop();
    scan.wanted = behind_value(scan);
    None
}

fn name(scan: &mut Scan, byte: u8) -> Option<Wanted> {
    if byte != b'"' {
        return Some(scan.wanted);
    }
    scan.part = Part::Text(true, Escape::Nothing);
    None
}

// The first byte of a value.
fn value(scan: &mut Scan, text: &[u8], at: usize, byte: u8) -> Result<Option<Wanted>, Memory> {
    match byte {
        b'{' => begin_with(scan, true),
        b'[' => begin_with(scan, false),
        b'"' => Ok(begin(scan, Part::Text(false, Escape::Nothing))),
        b'-' => Ok(begin(scan, Part::Number(Digits::Minus))),
        b'0' => Ok(begin(scan, Part::Number(Digits::Zero))),
        b'1' | b'2' | b'3' | b'4' | b'5' | b'6' | b'7' | b'8' | b'9' => Ok(begin(
            scan,
            Part::Number(Digits::Whole),
        )),
        _ => Ok(word(scan, text, at)),
    }
}

fn begin(scan: &mut Scan, part: Part) -> Option<Wanted> {
    scan.part = part;
    None
}

fn begin_with(scan: &mut Scan, is_object: bool) -> Result<Option<Wanted>, Memory> {
    if scan.open.len() >= MOST_DEPTH {
        return Ok(Some(Wanted::Shallower));
    }
    let line = scan.line;
    scan.open.push(Open { is_object, line })?;
    scan.wanted = if is_object {
        Wanted::FirstName
    } else {
        Wanted::FirstItem
    };
    Ok(None)
}

// One of the three words, whole.
fn word(scan: &mut Scan, text: &[u8], at: usize) -> Option<Wanted> {
    let word = word_at(text, at);
    if word == b"true".as_slice() || word == b"null".as_slice() || word == b"false".as_slice() {
        scan.wanted = behind_value(scan);
        scan.part = Part::Word(word.len().saturating_sub(1));
        None
    } else {
        Some(scan.wanted)
    }
}

/// The letters and digits from a place of the text on.
pub(crate) fn word_at(text: &[u8], at: usize) -> &[u8] {
    let Some(rest) = text.get(at..) else {
        return &[];
    };
    match rest.iter().position(|byte| !is_of_word(*byte)) {
        Some(end) => rest.get(..end).unwrap_or(&[]),
        None => rest,
    }
}

fn is_of_word(byte: u8) -> bool {
    byte.is_ascii_alphanumeric() || byte == b'_'
}
