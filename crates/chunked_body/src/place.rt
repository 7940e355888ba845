// Where a reading of chunks is, byte by byte.

ghost use Rattle.std.specs.Prelude.{◌≡◌};
ghost use Rattle.chunked_body.specs.Readings.{after_size as place_after, chunk_place, counted as counted_place, data_place, is_data, is_final, next as next_place};

use httparse::parse_hex_digit;

const BODY_LIMIT: u64 = 262_144;

// At a chunk's line or in its size (so many digits, their value), behind it in white space, in an extension or before the line feed (the
// size), in a chunk's bytes (how many come behind the next one) or at their line end, or at its own end: whole, too long, or not of the
// form.
#[derive(Clone, Copy, Debug, PartialEq, Eq, Drop)]
pub(crate) enum Place {
    Line,
    Size(u8, u64),
    Pad(u64),
    Extension(u64),
    LineFeed(u64),
    Data(u64),
    DataReturn,
    DataFeed,
    Done,
    Over,
    Bad,
}

impl Place {
    // The reading has ended.
    pub(crate) fn is_over(self) -> bool
        ensures { result ≡ is_final self }
    {
        matches!(self, Place::Done | Place::Over | Place::Bad)
    }

    // The next byte is one of the body.
    pub(crate) fn takes(self) -> bool
        ensures { result ≡ is_data self }
    {
        matches!(self, Place::Data(_))
    }
}

// The place behind the digits of a size.
fn after_size(size: u64, b: u8) -> Place
    ensures { result ≡ place_after size b }
{
    match b {
        b' ' | b'\t' => Place::Pad(size),
        b';' => Place::Extension(size),
        b'\r' => Place::LineFeed(size),
        _ => Place::Bad,
    }
}

// The place behind a chunk's line, with so many bytes of body before it.
fn chunk(have: u64, size: u64) -> Place
    ensures { result ≡ chunk_place have size }
{
    if size == 0 {
        Place::Done
    } else if size > BODY_LIMIT.saturating_sub(have) {
        Place::Over
    } else {
        Place::Data(size - 1)
    }
}

// The place behind so many bytes of a chunk, behind the first of which so many come.
pub(crate) fn behind(more: u64, n: u64) -> Place
    ensures { result ≡ data_place more n }
{
    if n > more {
        Place::DataReturn
    } else {
        Place::Data(more - n)
    }
}

// The place after a byte, with so many bytes of body before it.
pub(crate) fn next(have: u64, place: Place, b: u8) -> Place
    ensures { result ≡ next_place have place b }
{
    match place {
        Place::Line => match parse_hex_digit(b) {
            Some(digit) => Place::Size(1, digit),
            None => Place::Bad,
        },
        Place::Size(digits, size) => match parse_hex_digit(b) {
            Some(_) if digits >= 16 => Place::Bad,
            Some(_) if size > BODY_LIMIT => Place::Size(digits + 1, size),
            Some(digit) => Place::Size(digits + 1, size * 16 + digit),
            None => after_size(size, b),
        },
        Place::Pad(size) => after_size(size, b),
        Place::Extension(size) if b == b'\r' => Place::LineFeed(size),
        Place::Extension(size) if b != b'\n' => Place::Extension(size),
        Place::LineFeed(size) if b == b'\n' => chunk(have, size),
        Place::Data(more) => if more == 0 {
            Place::DataReturn
        } else {
            Place::Data(more - 1)
        },
        Place::DataReturn if b == b'\r' => Place::DataFeed,
        Place::DataFeed if b == b'\n' => Place::Line,
        Place::Done => Place::Done,
        Place::Over => Place::Over,
        _ => Place::Bad,
    }
}

// A place, where so many bytes of the form may still come.
pub(crate) fn counted(room: u64, place: Place) -> Place
    ensures { result ≡ counted_place room place }
{
    if place == Place::Bad || room > 0 {
        place
    } else {
        Place::Over
    }
}
