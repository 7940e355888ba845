// What is found of a ring's file.

ghost use Rattle.std.specs.Prelude.{List, ℕ, IfOk, Option};
ghost use Rattle.cli_rings.specs.RingFiles.{IsFileOf};
ghost use Rattle.cli_inspect.specs.Configs.{IsFoundIn};

use cli_rings::File;
use fed_ports::Memory;
use key_ring::{KeyRing, RingFault};
use std::alloc::Global;

/// What is found of a ring's file.
#[derive(Drop)]
pub enum RingFound {
    /// There is none.
    Absent,
    /// It has more than 4,194,304 bytes.
    TooLong,
    /// It isn't of its form.
    Shape,
    /// A key stands twice in it.
    Known,
    /// Its ring.
    Opened(KeyRing),
}

/// What is found of the file.
pub(crate) fn ring_found(alloc: Global, file: &File) -> Result<RingFound, Memory>
    ensures { (bytes : Option (List ℕ)) → IsFileOf file.now bytes → IfOk result (IsFoundIn bytes) }
{
    match file {
        File::Absent => Ok(RingFound::Absent),
        File::TooLong => Ok(RingFound::TooLong),
        File::Whole(bytes) => match KeyRing::open(alloc, bytes.as_slice()) {
            Ok(ring) => Ok(RingFound::Opened(ring)),
            Err(RingFault::Shape) => Ok(RingFound::Shape),
            Err(RingFault::Known(_)) => Ok(RingFound::Known),
            Err(_) => Err(Memory),
        },
    }
}
