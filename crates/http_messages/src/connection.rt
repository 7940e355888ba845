// Whether a connection goes on behind a request.

ghost use Rattle.std.specs.Prelude.{◌≡◌, ◌≤◌, length, map, codes, reverse, All};
ghost use Rattle.std.specs.Char.{to_ascii_lowercase};
ghost use Rattle.std.specs.List.{position_or_len};
ghost use Rattle.httparse.specs.Grammar.{is_ows, skip_ows};
ghost use Rattle.httparse.specs.Spans.{IsHeaderWithin, header_bytes};
ghost use Rattle.http_messages.specs.Connections.{asks_close, has_member, is_comma, is_word};

use crate::fields::is_name;
use httparse::spans::HeaderSpan;

fn is_ows(b: u8) -> bool
    ensures { result ≡ is_ows b }
{
    b == b' ' || b == b'\t'
}

// The text without the white space before it.
fn skip_front(text: &[u8]) -> &[u8]
    ensures { result.now ≡ skip_ows text.now }
{
    for at in 0..text.len() {
        if !is_ows(text[at]) {
            return &text[at..];
        }
    }
    &[]
}

// The text without the white space behind it.
fn skip_back(text: &[u8]) -> &[u8]
    ensures { result.now ≡ reverse (skip_ows (reverse text.now)) }
{
    for at in 0..text.len() {
        let len = text.len() - at;
        if !is_ows(text[len - 1]) {
            return &text[..len];
        }
    }
    &[]
}

// Whether the member of a list is that word, which is in lower case.
#[tactic(auto, unfolding(httparse::specs::Grammar::trim_ows))]
fn is_word(member: &[u8], word: &[u8]) -> bool
    requires { map to_ascii_lowercase word.now ≡ word.now }
    ensures { result ≡ is_word word.now member.now }
{
    is_name(skip_back(skip_front(member)), word)
}

// The place of the first comma, or the length.
fn comma(text: &[u8]) -> usize
    ensures value { result ≡ position_or_len is_comma text.now }
    ensures within { result ≤ length text.now }
{
    match text.iter().position(|&b| b == b',') {
        Some(at) => at,
        None => text.len(),
    }
}

// Whether a list has that member, which is in lower case.
fn has_member(value: &[u8], word: &[u8]) -> bool
    requires { map to_ascii_lowercase word.now ≡ word.now }
    ensures { result ≡ has_member word.now value.now }
{
    let mut from = 0;
    while from <= value.len() {
        let rest = &value[from..];
        let at = comma(rest);
        if is_word(&rest[..at], word) {
            return true;
        }
        from += at + 1;
    }
    false
}

// Whether one of the lines asks that the connection be closed.
pub(crate) fn asks_close(buf: &[u8], lines: &[HeaderSpan]) -> bool
    requires { All (IsHeaderWithin (length buf.now)) lines.now }
    ensures { result ≡ asks_close (map (header_bytes buf.now) lines.now) }
{
    for line in lines {
        if is_name(line.name.of(buf), b"connection") && has_member(line.value.of(buf), b"close") {
            return true;
        }
    }
    false
}
