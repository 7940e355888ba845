// How two identifiers differ.

use entity_id::EntityId;

/// How the one identifier differs from the other, as what is said behind it: `, which has a slash more at its end`. Nothing is said where
/// they are equal, or differ in more than one of these ways.
pub fn difference_of(one: &EntityId, other: &EntityId) -> &'static [u8] {
    let (one, other) = (one.text(), other.text());
    if one == other {
        b""
    } else if without_last(one) == Some(other) {
        b", which has a slash more at its end"
    } else if without_last(other) == Some(one) {
        b", which has a slash less at its end"
    } else if one.eq_ignore_ascii_case(other) {
        b", which has other letters in upper case"
    } else if is_with(one, b"http://", other, b"https://") {
        b", which has http for https"
    } else if is_with(one, b"https://", other, b"http://") {
        b", which has https for http"
    } else {
        b""
    }
}

// The text without the slash at its end, where there is one.
fn without_last(text: &[u8]) -> Option<&[u8]> {
    text.strip_suffix(b"/")
}

// Whether the texts are the same behind these beginnings.
fn is_with(one: &[u8], begins: &[u8], other: &[u8], other_begins: &[u8]) -> bool {
    match (one.strip_prefix(begins), other.strip_prefix(other_begins)) {
        (Some(rest), Some(other_rest)) => rest == other_rest,
        _ => false,
    }
}
