// What is wrong with bytes that aren't JSON.

/// What bytes are that aren't JSON.
#[derive(Clone, Copy, PartialEq, Eq, Debug, Drop)]
pub enum TextFault {
    /// There are none.
    Empty,
    /// They begin as a signed text does.
    SignedText,
    /// They begin with a byte order mark.
    Marked,
    /// They are anything else.
    Syntax,
}

/// What the bytes are, which aren't JSON.
pub fn text_fault(bytes: &[u8]) -> TextFault {
    if bytes.is_empty() {
        TextFault::Empty
    } else if bytes.starts_with(b"eyJ") {
        TextFault::SignedText
    } else if bytes.starts_with(b"\xef\xbb\xbf") {
        TextFault::Marked
    } else {
        TextFault::Syntax
    }
}
