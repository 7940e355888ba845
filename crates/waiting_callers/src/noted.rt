// What the log says of one request on a connection.

use crate::request_ends::RequestEnds;
use crate::spelled::{cut, or_dash, shown};
use std::str;

// How many bytes of a request are kept for the log.
const KEPT: usize = 768;

/// The beginning of the first line of the request that is to be answered, and how far those behind it have come.
#[derive(Drop)]
pub struct Noted {
    request: [u8; KEPT],
    kept: usize,
    ended: bool,
    ends: RequestEnds,
    waiting: u64,
}

impl Noted {
    /// Nothing was read yet.
    pub fn new() -> Noted {
        Noted {
            request: [0; KEPT],
            kept: 0,
            ended: false,
            ends: RequestEnds::new(),
            waiting: 0,
        }
    }

    /// Begins anew for the next answer. Of a request that was read of before, with an earlier one, the first line isn't known.
    pub fn next(&mut self) {
        self.waiting = self.waiting.saturating_sub(1);
        self.kept = 0;
        self.ended = self.has_begun();
    }

    /// Whether something was read of a request that isn't answered.
    pub fn has_begun(&self) -> bool {
        self.waiting > 0 || self.ends.has_begun()
    }

    /// Whether another request was read whole behind the one that is to be answered.
    pub fn has_another(&self) -> bool {
        self.waiting > 1
    }

    /// Whether a request is there whole that isn't answered, head and body.
    pub fn is_whole(&self) -> bool {
        self.waiting > 0
    }

    /// Notes what was read, up to the end of the first line that isn't empty: whoever reads a request passes over those before it. What
    /// stands behind the request is of another.
    pub fn read(&mut self, bytes: &[u8]) {
        for byte in bytes {
            if self.waiting == 0 {
                self.keep(*byte);
            }
            if self.ends.step(*byte) {
                self.waiting = self.waiting.saturating_add(1);
            }
        }
    }

    // Keeps a byte of the request's first line.
    fn keep(&mut self, byte: u8) {
        if byte == b'\r' || byte == b'\n' {
            self.ended |= self.kept > 0;
        } else if !self.ended && self.kept < KEPT {
            self.request[self.kept] = shown(byte);
            self.kept += 1;
        }
    }

    // The method and the target of the request, as they were sent.
    fn line(&self) -> (&str, &str) {
        let text = str::from_utf8(self.request.get(..self.kept).unwrap_or(&[])).unwrap_or("");
        let (method, rest) = cut(text, ' ');
        let (target, _) = cut(rest, ' ');
        (method, target)
    }

    /// The method and the path, each a dash where there is none. The path ends before its query.
    pub fn request(&self) -> (&str, &str) {
        let (method, target) = self.line();
        let (path, _) = cut(target, '?');
        (or_dash(method), or_dash(path))
    }

    /// The value of the first member of that name in the query, as it was sent.
    pub fn asked(&self, name: &str) -> Option<&str> {
        let (_, target) = self.line();
        let (_, query) = cut(target, '?');
        for member in query.split('&') {
            let (its, value) = cut(member, '=');
            if its == name {
                return Some(value);
            }
        }
        None
    }
}
