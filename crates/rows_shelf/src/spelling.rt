// How rows spell what they are given and what they answer.
use fed_base::{Memory, Text};
use std::alloc::Global;

/// The number that a part spells, or 0.
pub fn number(part: &str) -> u64 {
    part.parse::<u64>().unwrap_or(0)
}

/// A part of a call, by its place among those with a colon between two.
pub fn at<'a>(call: &'a str, place: usize) -> &'a str {
    call.split(':').nth(place).unwrap_or("")
}

/// The text, where it is UTF-8.
pub fn shown(text: &Text) -> &str {
    str::from_utf8(text.as_slice()).unwrap_or("not UTF-8")
}

/// Appends a number in decimal digits.
pub fn push_number(alloc: Global, out: &mut Text, number: u64) -> Result<(), Memory> {
    let digits = format!(in alloc; "{number}")?;
    out.append(digits.as_bytes())
}

/// A text of so many letters `h`.
pub fn letters(alloc: Global, count: u64) -> Result<Text, Memory> {
    let mut text = Text::new(alloc);
    for _ in 0..count {
        text.push(b'h')?;
    }
    Ok(text)
}
