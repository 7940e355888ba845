// Texts between quotation marks.

ghost use Rattle.std.specs.Prelude.{◌≡◌, ◌++◌, ◌<◌, flat_map, IfOk, OnOk};
ghost use Rattle.plain_notes.specs.Strings.{calm_after, is_calm, shown_byte, string, turns};

use crate::sentence::digit;
use fed_base::{Memory, Text};
use std::alloc::Global;

/// The text between quotation marks, with escapes for what a terminal acts on: a byte that isn't printable is shown as `\x` and its two
/// hexadecimal digits, and so is each byte that isn't ASCII where a control character or a mark of direction stands in the text.
pub fn string(alloc: Global, text: &[u8]) -> Result<Text, Memory>
    ensures { IfOk result (λ string'. string' ≡ string text.now) }
{
    let mut string = Text::new(alloc);
    append_string(&mut string, text)?;
    Ok(string)
}

/// Appends the text as [`string`] gives it.
pub fn append_string(out: &mut Text, text: &[u8]) -> Result<(), Memory>
    ensures { OnOk result (out.new ≡ out.old ++ string text.now) }
{
    out.push(b'"')?;
    append_shown(out, is_calm(text), text)?;
    out.push(b'"')
}

fn append_shown(string: &mut Text, calm: bool, text: &[u8]) -> Result<(), Memory>
    ensures { OnOk result (string.new ≡ string.old ++ flat_map (shown_byte calm) text.now) }
{
    for byte in text {
        append_byte(string, calm, *byte)?;
    }
    Ok(())
}

fn append_byte(string: &mut Text, calm: bool, byte: u8) -> Result<(), Memory>
    ensures { OnOk result (string.new ≡ string.old ++ shown_byte calm byte) }
{
    if byte == b'"' || byte == b'\\' {
        string.append(&[b'\\', byte])
    } else if (0x20 <= byte && byte <= 0x7e) || (calm && 0x80 <= byte) {
        string.push(byte)
    } else {
        string.append(&[b'\\', b'x', digit(byte / 16), digit(byte % 16)])
    }
}

// Whether no character stands in the text that moves a terminal's cursor or turns letters round.
fn is_calm(text: &[u8]) -> bool
    ensures { result ≡ is_calm text.now }
{
    let mut before = 0;
    for byte in text {
        if turns(before, *byte) {
            return false;
        }
        before = *byte;
    }
    true
}

// Whether two bytes of UTF-8 are or begin such a character.
fn turns(a: u8, b: u8) -> bool
    ensures { result ≡ turns a b }
{
    (a == 0xc2 && 0x80 <= b && b <= 0x9f)
        || (a == 0xd8 && b == 0x9c)
        || (a == 0xe2 && 0x80 <= b && b <= 0x81)
}
