// What a request's head says.

ghost use Rattle.std.specs.Prelude.{◌≡◌, ◌≤◌, length, map, All, codes, nat_eq};
ghost use Rattle.std.specs.List.{starts_with};
ghost use Rattle.httparse.specs.Spans.{IsHeaderWithin, header_bytes};
ghost use Rattle.http_messages.specs.Heads.{line_limit};
ghost use Rattle.http_messages.specs.Cuts.{has_stray_body, states_bytes};
ghost use Rattle.http_messages.specs.Plans.{IsHeading, IsPlan, stated_view};
ghost use Rattle.http_messages.specs.Requests.{body_by, body_size, method_of};

use crate::connection::asks_close;
use crate::fields::{Stated, content_length, has_line};
use crate::heads::LINE_LIMIT;
use crate::request::Method;
use httparse::Status;
use httparse::spans::{EMPTY_HEADER_SPAN, HeaderSpan, RequestSpans, Span, parse_request};

fn method(text: &[u8]) -> Option<Method>
    ensures { result ≡ method_of text.now }
{
    if text == b"GET".as_slice() {
        Some(Method::Get)
    } else if text == b"POST".as_slice() {
        Some(Method::Post)
    } else {
        None
    }
}

fn begins_path(target: &[u8]) -> bool
    ensures { result ≡ starts_with nat_eq target.now (codes "/") }
{
    target.starts_with(b"/")
}

// How many bytes of body follow.
fn body_length(method: Option<Method>, stated: Stated) -> Option<u64>
    ensures { result ≡ body_by method (stated_view stated) }
{
    let is_get = method? == Method::Get;
    match stated {
        Stated::Absent if is_get => Some(0),
        Stated::Size(n) if n <= 300_000 => Some(if is_get { 0 } else { n }),
        _ => None,
    }
}

// The length of the body that a head's parts give.
#[tactic(auto, unfolding(crate::specs::Requests::body_size))]
fn body_of(buf: &[u8], verb: &[u8], target: &[u8], lines: &[HeaderSpan]) -> Option<u64>
    requires { All (IsHeaderWithin (length buf.now)) lines.now }
    ensures { result ≡ body_size verb.now target.now (map (header_bytes buf.now) lines.now) }
{
    if !begins_path(target) || has_line(buf, lines, b"transfer-encoding") {
        return None;
    }
    body_length(method(verb), content_length(buf, lines, 6))
}

// Whether a length is stated that isn't 0.
fn states_bytes(stated: Stated) -> bool
    ensures { result ≡ states_bytes (stated_view stated) }
{
    match stated {
        Stated::Size(n) => n > 0,
        Stated::Absent | Stated::Bad => false,
    }
}

// Whether a GET states a body.
fn has_stray_body(buf: &[u8], verb: &[u8], lines: &[HeaderSpan]) -> bool
    requires { All (IsHeaderWithin (length buf.now)) lines.now }
    ensures { result ≡ has_stray_body verb.now (map (header_bytes buf.now) lines.now) }
{
    verb == b"GET".as_slice() && states_bytes(content_length(buf, lines, 6))
}

// Where the parts of the head are, which is the whole text.
fn heading(head: &[u8], lines: &mut [HeaderSpan]) -> Option<RequestSpans>
    requires { length lines.old ≡ line_limit }
    ensures { IsHeading head.now lines.new result }
{
    match parse_request(head, lines) {
        Ok(Status::Complete(found)) if found.len == head.len() => Some(found),
        _ => None,
    }
}

// What is to be read behind a head, and what it asks: also whether it is a GET that states a body, and whether its sender closes behind it.
#[derive(Clone, Copy)]
pub(crate) struct Plan {
    pub method: Method,
    pub target: Span,
    pub size: usize,
    pub is_stray: bool,
    pub is_last: bool,
}

// What a head says, where it is a request's.
pub(crate) fn read_plan(head: &[u8]) -> Option<Plan>
    ensures { IsPlan head.now result }
{
    let mut lines = [EMPTY_HEADER_SPAN; LINE_LIMIT];
    let found = heading(head, &mut lines)?;
    let verb = found.method.of(head);
    let lines = &lines[..found.headers];
    let size = body_of(head, verb, found.path.of(head), lines)?;
    let method = method(verb)?;
    Some(Plan {
        method,
        target: found.path,
        size: size as usize,
        is_stray: has_stray_body(head, verb, lines),
        is_last: found.version == 0 || asks_close(head, lines),
    })
}
