// Strings of JSON (RFC 8259 section 7).

use crate::scan::Wanted;

/// What an escape in a string lacks.
#[derive(Clone, Copy, Debug, PartialEq, Eq, Drop)]
pub(crate) enum Escape {
    /// There is none, or it is done.
    Nothing,
    /// What stands behind the reverse solidus.
    Letter,
    /// So many digits of base 16.
    Digits(u8),
}

/// What an escape lacks behind one more byte of the string, or what must stand in that byte's place.
pub(crate) fn after_escape(escape: Escape, byte: u8) -> Result<Escape, Wanted> {
    match escape {
        Escape::Nothing => after_character(byte),
        Escape::Letter => after_letter(byte),
        Escape::Digits(left) => if byte.is_ascii_hexdigit() {
            Ok(if left <= 1 {
                Escape::Nothing
            } else {
                Escape::Digits(left - 1)
            })
        } else {
            Err(Wanted::HexDigit)
        },
    }
}

fn after_character(byte: u8) -> Result<Escape, Wanted> {
    if byte < 0x20 {
        Err(Wanted::Character)
    } else if byte == b'\\' {
        Ok(Escape::Letter)
    } else {
        Ok(Escape::Nothing)
    }
}

fn after_letter(byte: u8) -> Result<Escape, Wanted> {
    match byte {
        b'"' | b'\\' | b'/' | b'b' | b'f' | b'n' | b'r' | b't' => Ok(Escape::Nothing),
        b'u' => Ok(Escape::Digits(4)),
        _ => Err(Wanted::Escape),
    }
}
