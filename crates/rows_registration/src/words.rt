// Answers put together.

use fed_base::{Memory, Text};
use std::alloc::Global;

/// Adds a word, with a space before it unless it is the first.
pub(crate) fn add_word(out: &mut Text, word: &[u8]) -> Result<(), Memory> {
    if !out.is_empty() {
        out.push(b' ')?;
    }
    out.append(word)
}

/// Adds a number in decimal digits, as a word.
pub(crate) fn add_number(alloc: Global, out: &mut Text, n: u64) -> Result<(), Memory> {
    let digits = format!(in alloc; "{n}")?;
    add_word(out, digits.as_bytes())
}

/// Adds bytes with their line ends made visible.
pub(crate) fn show(out: &mut Text, bytes: &[u8]) -> Result<(), Memory> {
    for &byte in bytes {
        match byte {
            b'\r' => out.append(b"\\r")?,
            b'\n' => out.append(b"\\n")?,
            _ => out.push(byte)?,
        }
    }
    Ok(())
}
