// What an answer's head says of its body.

ghost use Rattle.std.specs.Prelude.{◌≡◌, length, map, All, codes};
ghost use Rattle.std.specs.Char.{to_ascii_lowercase};
ghost use Rattle.httparse.specs.Spans.{IsHeaderWithin, header_bytes};
ghost use Rattle.http_messages.specs.Fields.{values_named};
ghost use Rattle.http_messages.specs.Heads.{line_limit};
ghost use Rattle.http_plain.specs.Pages.{all_are, chunked_by, framed, framing, IsForm};
ghost use Rattle.http_messages.specs.Plans.{stated_view};
ghost use Rattle.http_plain.specs.Plans.{IsAnswerHeading};

use http_messages::{Found, LINE_LIMIT, Stated, content_length, find, is_name};
use httparse::Status;
use httparse::spans::{EMPTY_HEADER_SPAN, HeaderSpan, ResponseSpans, parse_response};

// How the body of an answer is read.
#[derive(Clone, Copy, Debug, PartialEq, Eq, Drop)]
pub(crate) enum Form {
    Bad,
    Refused(u16),
    Sized(u64),
    Chunked,
    ToEnd,
}

// Whether each line of a name has that value, both in lower case.
fn all_say(buf: &[u8], lines: &[HeaderSpan], name: &[u8], value: &[u8]) -> bool
    requires lower_name { map to_ascii_lowercase name.now ≡ name.now }
    requires lower_value { map to_ascii_lowercase value.now ≡ value.now }
    requires within { All (IsHeaderWithin (length buf.now)) lines.now }
    ensures { result ≡ all_are value.now (values_named name.now (map (header_bytes buf.now) lines.now)) }
{
    for line in lines {
        if is_name(line.name.of(buf), name) && !is_name(line.value.of(buf), value) {
            return false;
        }
    }
    true
}

// Whether the body is in chunks; none for another coding.
fn is_chunked(buf: &[u8], lines: &[HeaderSpan]) -> Option<bool>
    requires { All (IsHeaderWithin (length buf.now)) lines.now }
    ensures { result ≡ chunked_by (values_named (codes "transfer-encoding") (map (header_bytes buf.now) lines.now)) }
{
    match find(buf, lines, b"transfer-encoding") {
        Found::Absent => Some(false),
        Found::Once(value) if is_name(value, b"chunked") => Some(true),
        _ => None,
    }
}

// By the coding of the body and its length.
fn framed(chunked: Option<bool>, stated: Stated) -> Form
    ensures { result ≡ framed chunked (stated_view stated) }
{
    let Some(chunked) = chunked else {
        return Form::Bad;
    };
    match stated {
        Stated::Bad => Form::Bad,
        Stated::Absent => if chunked { Form::Chunked } else { Form::ToEnd },
        Stated::Size(n) => if chunked { Form::Bad } else { Form::Sized(n) },
    }
}

#[tactic(auto, unfolding(crate::specs::Pages::framing))]
fn framing(buf: &[u8], lines: &[HeaderSpan]) -> Form
    requires { All (IsHeaderWithin (length buf.now)) lines.now }
    ensures { result ≡ framing (map (header_bytes buf.now) lines.now) }
{
    if !all_say(buf, lines, b"content-encoding", b"identity") {
        return Form::Bad;
    }
    framed(is_chunked(buf, lines), content_length(buf, lines, 19))
}

// Where the parts of the head are, which is the whole text.
fn answer_heading(head: &[u8], lines: &mut [HeaderSpan]) -> Option<ResponseSpans>
    requires { length lines.old ≡ line_limit }
    ensures { IsAnswerHeading head.now lines.new result }
{
    match parse_response(head, lines) {
        Ok(Status::Complete(found)) if found.len == head.len() => Some(found),
        _ => None,
    }
}

// How the body behind a head is read.
pub(crate) fn form_of(head: &[u8]) -> Form
    ensures { IsForm head.now result }
{
    let mut lines = [EMPTY_HEADER_SPAN; LINE_LIMIT];
    let Some(found) = answer_heading(head, &mut lines) else {
        return Form::Bad;
    };
    if found.code != 200 {
        return Form::Refused(found.code);
    }
    framing(head, &lines[..found.headers])
}
