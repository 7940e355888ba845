// How the log spells what was sent and given.

/// A byte as the log shows it: a space, or an ASCII letter, digit or sign, as it is, and any other as a star.
pub fn shown(byte: u8) -> u8 {
    if byte == b' ' || byte.is_ascii_graphic() {
        byte
    } else {
        b'*'
    }
}

/// The text before that sign and the text behind it, or the whole text.
pub fn cut(text: &str, sign: char) -> (&str, &str) {
    text.split_once(sign).unwrap_or((text, ""))
}

/// The text, or a dash where it is empty.
pub fn or_dash(text: &str) -> &str {
    if text.is_empty() { "-" } else { text }
}
