// Rows taken apart, and answers put together.

use fed_base::{Memory, Text};
use std::alloc::Global;

/// A part of a row, by its place among those with a tab between two; nothing where there is none.
pub(crate) fn at(row: &str, place: usize) -> &str {
    row.split('\t').nth(place).unwrap_or("")
}

/// The number that the digits say, and 0 where they say none.
pub(crate) fn number(digits: &str) -> u64 {
    digits.parse::<u64>().unwrap_or(0)
}

/// Adds a word, with a space before it unless it is the first.
pub(crate) fn add_word(out: &mut Text, word: &[u8]) -> Result<(), Memory> {
    if !out.is_empty() {
        out.push(b' ')?;
    }
    out.append(word)
}

/// Adds a number in decimal digits, as a word.
pub(crate) fn add_number(alloc: Global, out: &mut Text, n: u64) -> Result<(), Memory> {
    let digits = format!(in alloc; "{n}")?;
    add_word(out, digits.as_bytes())
}
