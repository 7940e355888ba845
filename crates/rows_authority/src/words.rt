// Rows taken apart, and answers put together.

use fed_base::{Memory, Text};
use std::alloc::Global;

/// The part before the first tab and what stands behind it; the whole and nothing where there is no tab.
pub(crate) fn cut(text: &str) -> (&str, &str) {
    text.split_once('\t').unwrap_or((text, ""))
}

/// The number that the digits say, and 0 where they say none.
pub(crate) fn number(digits: &str) -> u64 {
    digits.parse::<u64>().unwrap_or(0)
}

/// Adds a word, with a space before it unless it is the first.
pub(crate) fn add_word(out: &mut Text, word: &[u8]) -> Result<(), Memory> {
    if !out.is_empty() {
        out.push(b' ')?;
    }
    out.append(word)
}

/// Adds a number in decimal digits, as a word.
pub(crate) fn add_number(alloc: Global, out: &mut Text, n: u64) -> Result<(), Memory> {
    let digits = format!(in alloc; "{n}")?;
    add_word(out, digits.as_bytes())
}

/// Adds what a number counts, and the number.
pub(crate) fn add_named(alloc: Global, out: &mut Text, name: &[u8], n: u64) -> Result<(), Memory> {
    add_word(out, name)?;
    add_number(alloc, out, n)
}
