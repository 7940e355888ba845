// Numbers of JSON (RFC 8259 section 6).

/// What was read of a number.
#[derive(Clone, Copy, Debug, PartialEq, Eq, Drop)]
pub(crate) enum Digits {
    /// The sign.
    Minus,
    /// A zero, which no digit follows.
    Zero,
    /// Digits before a point.
    Whole,
    /// The point.
    Point,
    /// Digits behind it.
    Fraction,
    /// The letter of an exponent.
    Letter,
    /// Its sign.
    Sign,
    /// Its digits.
    Exponent,
}

/// What was read with one more byte, or `None` where that is no part of the number.
pub(crate) fn after_digit(digits: Digits, byte: u8) -> Option<Digits> {
    match (digits, byte) {
        (Digits::Minus, b'0') => Some(Digits::Zero),
        (Digits::Zero | Digits::Whole, b'.') => Some(Digits::Point),
        (Digits::Zero | Digits::Whole | Digits::Fraction, b'e' | b'E') => Some(Digits::Letter),
        (Digits::Letter, b'+' | b'-') => Some(Digits::Sign),
        _ => if byte.is_ascii_digit() {
            after_decimal(digits)
        } else {
            None
        },
    }
}

fn after_decimal(digits: Digits) -> Option<Digits> {
    match digits {
        Digits::Minus | Digits::Whole => Some(Digits::Whole),
        Digits::Point | Digits::Fraction => Some(Digits::Fraction),
        Digits::Letter | Digits::Sign | Digits::Exponent => Some(Digits::Exponent),
        Digits::Zero => None,
    }
}

/// Whether the number may end there.
pub(crate) fn ends_number(digits: Digits) -> bool {
    matches!(
        digits,
        Digits::Zero | Digits::Whole | Digits::Fraction | Digits::Exponent
    )
}
