// Rows taken apart, and answers put together.

use fed_base::{Memory, Text};
use std::alloc::Global;

/// The part before the first tab and what stands behind it; the whole and nothing where there is no tab.
pub(crate) fn cut(text: &str) -> (&str, &str) {
    text.split_once('\t').unwrap_or((text, ""))
}

/// The number that the digits say, and 0 where they say none.
pub(crate) fn number(digits: &str) -> u64 {
    digits.parse::<u64>().unwrap_or(0)
}

// Adds the bytes that a text stands for: `^` is CR LF, `~` LF and `` ` `` CR.
fn add_bytes(out: &mut Text, text: &str) -> Result<(), Memory> {
    for &byte in text.as_bytes() {
        match byte {
            b'^' => out.append(b"\r\n")?,
            b'~' => out.push(b'\n')?,
            b'`' => out.push(b'\r')?,
            _ => out.push(byte)?,
        }
    }
    Ok(())
}

// Adds a part, which is a text, or a number of times, a star and a text.
fn add_part(out: &mut Text, part: &str) -> Result<(), Memory> {
    if let Some((digits, text)) = part.split_once('*') {
        if let Ok(times) = digits.parse::<u32>() {
            for _ in 0..times {
                add_bytes(out, text)?;
            }
            return Ok(());
        }
    }
    add_bytes(out, part)
}

/// The bytes that the parts stand for, one behind the other.
pub(crate) fn bytes(alloc: Global, parts: &str) -> Result<Text, Memory> {
    let mut out = Text::new(alloc);
    for part in parts.split('\t') {
        add_part(&mut out, part)?;
    }
    Ok(out)
}

/// Adds bytes with their line ends made visible.
pub(crate) fn show(out: &mut Text, bytes: &[u8]) -> Result<(), Memory> {
    for &byte in bytes {
        match byte {
            b'\r' => out.append(b"\\r")?,
            b'\n' => out.append(b"\\n")?,
            _ => out.push(byte)?,
        }
    }
    Ok(())
}

/// Adds a word, with a space before it unless it is the first.
pub(crate) fn add_word(out: &mut Text, word: &[u8]) -> Result<(), Memory> {
    if !out.is_empty() {
        out.push(b' ')?;
    }
    out.append(word)
}

/// Adds a number in decimal digits, as a word.
pub(crate) fn add_number(alloc: Global, out: &mut Text, n: u64) -> Result<(), Memory> {
    let digits = format!(in alloc; "{n}")?;
    add_word(out, digits.as_bytes())
}
