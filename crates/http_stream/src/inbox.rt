// Bytes that came and aren't answered yet.

ghost use Rattle.std.specs.Prelude.{◌≡◌, ◌≤◌, ◌==◌, ℕ, List, [], length, drop};

use std::alloc::Global;
use std::marker::Model;
use std::mem;

/// What came of a stream, from the first byte that isn't answered on.
#[derive(Drop)]
pub(crate) struct Inbox {
    bytes: Vec<u8>,
    at: usize,
}

impl Model for Inbox {
    ghost Value = { List ℕ };

    ghost view = { λ inbox. drop inbox.at inbox.bytes.items };

    ghost invariant = { λ inbox. inbox.at ≤ length inbox.bytes.items };
}

impl Inbox {
    /// Nothing came yet.
    pub(crate) fn new(alloc: Global) -> Inbox
        ensures { result ≡ [] }
    {
        Inbox {
            bytes: Vec::new(alloc),
            at: 0,
        }
    }

    pub(crate) fn bytes(&self) -> &[u8]
        ensures { result.now ≡ self.now }
    {
        &self.bytes[self.at..]
    }

    /// Lets the first bytes go.
    pub(crate) fn skip(&mut self, used: usize)
        requires { used ≤ length self.old }
        ensures { self.new ≡ drop used self.old }
    {
        self.at += used;
    }

    /// Takes all of them out.
    pub(crate) fn take(&mut self, alloc: Global) -> Vec<u8>
        ensures { result.items ≡ self.old }
    {
        let at = mem::replace(&mut self.at, 0);
        let mut bytes = mem::replace(&mut self.bytes, Vec::new(alloc));
        let len = bytes.len();
        bytes.copy_within(at..len, 0);
        bytes.truncate(len - at);
        bytes
    }

    /// Puts these in place of all.
    pub(crate) fn put(&mut self, bytes: Vec<u8>)
        ensures { self.new ≡ bytes.items }
    {
        self.at = 0;
        self.bytes = bytes;
    }
}
