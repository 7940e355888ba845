// What the log says of an answer.

use crate::spelled::{cut, or_dash, shown};
use std::str;

// How many bytes of an answer are kept for the log: its head, and what a refusal says.
const KEPT: usize = 512;

/// The beginning of an answer, and how many bytes of it were given.
#[derive(Drop)]
pub struct NotedAnswer {
    kept: [u8; KEPT],
    given: u64,
}

impl NotedAnswer {
    /// Nothing was given yet.
    pub fn new() -> NotedAnswer {
        NotedAnswer {
            kept: [b' '; KEPT],
            given: 0,
        }
    }

    /// Notes what was given.
    pub fn give(&mut self, bytes: &[u8]) {
        for byte in bytes {
            if self.given < KEPT as u64 {
                self.kept[self.given as usize] = shown(*byte);
            }
            self.given = self.given.saturating_add(1);
        }
    }

    fn text(&self) -> &str {
        str::from_utf8(&self.kept).unwrap_or("")
    }

    /// The status, or a dash.
    pub fn status(&self) -> &str {
        let (_, rest) = cut(self.text(), ' ');
        let (status, _) = cut(rest, ' ');
        or_dash(status)
    }

    /// How many bytes were given.
    pub fn bytes(&self) -> u64 {
        self.given
    }

    /// Of an answer that refuses, what its error is and how it is described (OpenID Federation 1.0 section 8.9).
    pub fn error(&self) -> Option<(&str, &str)> {
        let (_, rest) = self.text().split_once("\"error\":\"")?;
        let (error, rest) = cut(rest, '"');
        let (_, rest) = cut(rest, ':');
        let (_, rest) = cut(rest, '"');
        let (description, _) = cut(rest, '"');
        Some((error, description))
    }
}
