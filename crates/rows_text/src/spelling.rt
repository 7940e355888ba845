// How rows spell what they are given and what they answer.

ghost use Rattle.std.specs.Prelude.{◌<◌};

use fed_base::{Memory, Text};
use std::alloc::Global;
use std::fmt::Display;

/// What stands before the first tab, and what stands behind it.
pub fn cut(line: &str) -> (&str, &str) {
    line.split_once('\t').unwrap_or((line, ""))
}

/// The number that a part spells, or 0.
pub fn number(part: &str) -> u64 {
    part.parse::<u64>().unwrap_or(0)
}

/// The numbers that a part spells, with a comma between them; none where it is empty.
pub fn numbers(alloc: Global, part: &str) -> Result<Vec<u64>, Memory> {
    let mut numbers = Vec::new(alloc);
    for piece in part.split(',') {
        if !piece.is_empty() {
            numbers.push(number(piece))?;
        }
    }
    Ok(numbers)
}

fn digit(byte: u8) -> u8
    ensures { result < 16 }
{
    match byte {
        b'0'..=b'9' => byte - b'0',
        b'a'..=b'f' => byte - b'a' + 10,
        _ => 0,
    }
}

fn letter(digit: u8) -> char {
    match digit {
        0..=9 => (b'0' + digit) as char,
        10..=15 => (b'a' + (digit - 10)) as char,
        _ => '?',
    }
}

/// The bytes that a part spells.
pub fn bytes_of(alloc: Global, part: &str) -> Result<Text, Memory> {
    let mut bytes = Text::new(alloc);
    let mut rest = part.as_bytes();
    while let Some((&byte, behind)) = rest.split_first() {
        rest = behind;
        match (byte, behind) {
            (b'%', [high, low, others @ ..]) => {
                bytes.push(digit(*high) * 16 + digit(*low))?;
                rest = others;
            },
            _ => bytes.push(byte)?,
        }
    }
    Ok(bytes)
}

/// How the bytes are spelled: `%` and bytes that aren't ASCII or don't print by their digits.
pub fn spelled(alloc: Global, bytes: &Text) -> Result<String, Memory> {
    let mut spelled = String::new(alloc);
    for &byte in bytes.as_slice() {
        if byte != b'%' && byte >= b' ' && byte < 127 {
            spelled.push(byte as char)?;
        } else {
            spelled.push('%')?;
            spelled.push(letter(byte / 16))?;
            spelled.push(letter(byte % 16))?;
        }
    }
    Ok(spelled)
}

/// The words that the value is printed by.
pub fn told<D: Display>(alloc: Global, value: &D) -> Result<Text, Memory> {
    let told = format!(in alloc; "{value}")?;
    Ok(Text::from_vec(told.into_bytes()))
}

/// The text of a word.
pub fn word(alloc: Global, word: &str) -> Result<Text, Memory> {
    Text::of(alloc, word.as_bytes())
}
