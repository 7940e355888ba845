// What a GET of a URL gives.

ghost use Rattle.std.specs.Prelude.{◌≡◌};

use fed_base::{Duplicate, Memory, Text};
use std::alloc::Global;

/// What a GET of a URL gives.
#[derive(Drop)]
pub enum Page {
    /// The body of an answer with status 200, at most 262,144 bytes.
    Document(Text),
    /// Any other status, 0 to 999.
    Refusal(u16),
    /// What came is no answer of HTTP in a form that is read here.
    Garbled,
    /// The body is too long.
    TooLong,
    /// The URL isn't read, or there is no route to its host.
    NoRoute,
}

impl Duplicate for Page {
    fn copy(&self, alloc: Global) -> Result<Self, Memory> {
        match self {
            Page::Document(text) => Ok(Page::Document(text.copy(alloc)?)),
            Page::Refusal(status) => Ok(Page::Refusal(*status)),
            Page::Garbled => Ok(Page::Garbled),
            Page::TooLong => Ok(Page::TooLong),
            Page::NoRoute => Ok(Page::NoRoute),
        }
    }
}
