// The header lines of a head.

ghost use Rattle.std.specs.Prelude.{◌≡◌, ◌≤◌, length, map, codes, All};
ghost use Rattle.std.specs.Char.{to_ascii_lowercase};
ghost use Rattle.httparse.specs.Spans.{IsHeaderWithin, header_bytes};
ghost use Rattle.http_messages.specs.Fields.{has_line, is_named, number_of, stated, values_named};
ghost use Rattle.http_messages.specs.Plans.{IsFound, stated_view};

use httparse::spans::HeaderSpan;

// The number that the text writes in at most so many digits.
pub(crate) fn number(text: &[u8], most: usize) -> Option<u64>
    requires { most ≤ 19 }
    ensures { result ≡ number_of most text.now }
{
    if text.is_empty() || text.len() > most {
        return None;
    }
    let mut n: u64 = 0;
    for &b in text {
        if !b.is_ascii_digit() {
            return None;
        }
        n = n * 10 + u64::from(b - b'0');
    }
    Some(n)
}

/// Whether a text is that one, which is in lower case, without regard to case.
pub fn is_name(found: &[u8], name: &[u8]) -> bool
    requires { map to_ascii_lowercase name.now ≡ name.now }
    ensures { result ≡ is_named name.now (found.now, found.now) }
{
    found.eq_ignore_ascii_case(name)
}

/// The values of the lines of a name.
#[derive(Clone, Copy)]
pub enum Found<'b> {
    Absent,
    Once(&'b [u8]),
    Again,
}

/// What the lines say under a name, which is in lower case.
pub fn find<'b>(buf: &'b [u8], lines: &[HeaderSpan], name: &[u8]) -> Found<'b>
    requires lower { map to_ascii_lowercase name.now ≡ name.now }
    requires within { All (IsHeaderWithin (length buf.now)) lines.now }
    ensures { IsFound result (values_named name.now (map (header_bytes buf.now) lines.now)) }
{
    let mut found = Found::Absent;
    for line in lines {
        if is_name(line.name.of(buf), name) {
            if let Found::Once(_) = found {
                return Found::Again;
            }
            found = Found::Once(line.value.of(buf));
        }
    }
    found
}

// Whether a line has that name, which is in lower case.
pub(crate) fn has_line(buf: &[u8], lines: &[HeaderSpan], name: &[u8]) -> bool
    requires lower { map to_ascii_lowercase name.now ≡ name.now }
    requires within { All (IsHeaderWithin (length buf.now)) lines.now }
    ensures { result ≡ has_line name.now (map (header_bytes buf.now) lines.now) }
{
    !matches!(find(buf, lines, name), Found::Absent)
}

/// A length that a head states.
#[derive(Clone, Copy, Debug, PartialEq, Eq, Drop)]
pub enum Stated {
    Absent,
    Size(u64),
    Bad,
}

/// The content length that the lines state, in at most so many digits.
pub fn content_length(buf: &[u8], lines: &[HeaderSpan], most: usize) -> Stated
    requires few { most ≤ 19 }
    requires within { All (IsHeaderWithin (length buf.now)) lines.now }
    ensures { stated_view result ≡ stated most (values_named (codes "content-length") (map (header_bytes buf.now) lines.now)) }
{
    match find(buf, lines, b"content-length") {
        Found::Absent => Stated::Absent,
        Found::Once(value) => match number(value, most) {
            Some(n) => Stated::Size(n),
            None => Stated::Bad,
        },
        Found::Again => Stated::Bad,
    }
}
