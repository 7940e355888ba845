// Rows taken apart, and answers put together.

use fed_base::{Memory, Text};
use std::alloc::Global;

/// The part before the first tab and what stands behind it; the whole and nothing where there is no tab.
pub(crate) fn cut(text: &str) -> (&str, &str) {
    text.split_once('\t').unwrap_or((text, ""))
}

/// The number that the digits say, and 0 where they say none.
pub(crate) fn number(digits: &str) -> u64 {
    digits.parse::<u64>().unwrap_or(0)
}

// Adds the bytes that a text stands for: `^` is CR LF, `~` LF and `` ` `` CR.
fn add_text(out: &mut Text, text: &str) -> Result<(), Memory> {
    for &byte in text.as_bytes() {
        match byte {
            b'^' => out.append(b"\r\n")?,
            b'~' => out.push(b'\n')?,
            b'`' => out.push(b'\r')?,
            _ => out.push(byte)?,
        }
    }
    Ok(())
}

// Adds a part, which is a text, or a number of times, a star and a text.
fn add_part(out: &mut Text, part: &str) -> Result<(), Memory> {
    if let Some((digits, text)) = part.split_once('*') {
        if let Ok(times) = digits.parse::<u32>() {
            for _ in 0..times {
                add_text(out, text)?;
            }
            return Ok(());
        }
    }
    add_text(out, part)
}

/// The bytes that the parts stand for, one behind the other.
pub(crate) fn bytes(alloc: Global, parts: &str) -> Result<Text, Memory> {
    let mut out = Text::new(alloc);
    for part in parts.split('\t') {
        add_part(&mut out, part)?;
    }
    Ok(out)
}

/// Adds bytes with their line ends made visible, and of more than 400 how many there are alone.
pub(crate) fn show(alloc: Global, out: &mut Text, bytes: &[u8]) -> Result<(), Memory> {
    if bytes.len() > 400 {
        add_number(alloc, out, bytes.len() as u64)?;
        return out.append(b" bytes");
    }
    for &byte in bytes {
        match byte {
            b'\r' => out.append(b"\\r")?,
            b'\n' => out.append(b"\\n")?,
            _ => out.push(byte)?,
        }
    }
    Ok(())
}

/// Adds a number in decimal digits.
pub(crate) fn add_number(alloc: Global, out: &mut Text, n: u64) -> Result<(), Memory> {
    match format!(in alloc; "{n}") {
        Ok(digits) => out.append(digits.as_bytes()),
        Err(_) => Err(Memory),
    }
}

/// How often something was found, of so many times.
pub(crate) fn counted(alloc: Global, name: &[u8], n: u64, all: u64) -> Result<Text, Memory> {
    let mut out = Text::of(alloc, name)?;
    add_number(alloc, &mut out, n)?;
    out.append(b" of ")?;
    add_number(alloc, &mut out, all)?;
    Ok(out)
}
