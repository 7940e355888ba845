// Rows taken apart, and answers put together.

use fed_base::{Memory, Text};
use std::alloc::Global;

/// The part before the first tab and what stands behind it; the whole and nothing where there is no tab.
pub(crate) fn cut(text: &str) -> (&str, &str) {
    text.split_once('\t').unwrap_or((text, ""))
}

/// Adds a word, with a space before it unless it is the first.
pub(crate) fn add_word(out: &mut Text, word: &[u8]) -> Result<(), Memory> {
    if !out.is_empty() {
        out.push(b' ')?;
    }
    out.append(word)
}

/// Adds a number in decimal digits, as a word.
pub(crate) fn add_number(alloc: Global, out: &mut Text, n: u64) -> Result<(), Memory> {
    let digits = format!(in alloc; "{n}")?;
    add_word(out, digits.as_bytes())
}
