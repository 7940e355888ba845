// A source that gives a few bytes at a time.

ghost use Rattle.std.specs.Prelude.{Some, [], drop};

use fed_base::{Failed, Memory, Text};
use fed_ports::Source;

/// A source of given bytes, of which each call gives at most so many.
#[derive(Drop)]
pub(crate) struct Pieces {
    bytes: Vec<u8>,
    taken: usize,
    most: usize,
}

impl Pieces {
    /// All the bytes are left.
    pub(crate) fn new(bytes: Text, most: usize) -> Result<Pieces, Memory> {
        Ok(Pieces {
            bytes: bytes.into_vec()?,
            taken: 0,
            most,
        })
    }

    /// How many bytes are left.
    pub(crate) fn left(&self) -> usize {
        self.bytes.len().saturating_sub(self.taken)
    }
}

impl Source for Pieces {
    ghost left = { λ source. Some (drop source.taken source.bytes.items) };

    ghost source_side = { λ _. (Some [], 0) };

    ghost read_faults = { λ _. 0 };

    fn take(&mut self, into: &mut [u8]) -> Result<usize, Failed> {
        let rest = self.bytes.get(self.taken..).unwrap_or(&[]);
        let n = rest.len().min(into.len()).min(self.most.max(1));
        into[..n].copy_from_slice(&rest[..n]);
        self.taken += n;
        Ok(n)
    }
}
