// The file that a command names, and its ring.

ghost use Rattle.std.specs.Prelude.{IfOk, List, ℕ, Option};
ghost use Rattle.cli_rings.specs.RingFiles.{IsFileOf, IsRingFound};

use fed_ports::{Memory, Text};
use file_notes::{explain_absent_file, explain_long_file, explain_ring_file};
use key_ring::{KeyRing, RingFault};
use plain_notes::Notes;
use ring_faults::ring_fault;
use std::alloc::Global;

/// The file that a command names.
#[derive(Drop)]
pub enum File {
    /// There is none, or the command names none.
    Absent,
    /// It has more than 4,194,304 bytes.
    TooLong,
    /// Its bytes.
    Whole(Text),
}

/// The ring of a file, or `None` where it is that of none: it isn't there, is too long, isn't of its form, or has one key twice.
pub fn open_ring(alloc: Global, file: &File) -> Result<Option<KeyRing>, Memory>
    ensures { (bytes : Option (List ℕ)) → IsFileOf file.now bytes → IfOk result (IsRingFound bytes) }
{
    let File::Whole(bytes) = file else {
        return Ok(None);
    };
    match KeyRing::open(alloc, bytes.as_slice()) {
        Ok(ring) => Ok(Some(ring)),
        Err(RingFault::Shape) => Ok(None),
        Err(RingFault::Known(_)) => Ok(None),
        Err(_) => Err(Memory),
    }
}

/// Says why the file isn't that of a ring.
pub fn explain_no_ring(alloc: Global, name: &Text, file: &File, notes: &mut Notes) {
    match file {
        File::Absent => explain_absent_file(alloc, name, notes),
        File::TooLong => explain_long_file(alloc, name, notes),
        File::Whole(bytes) => explain_ring_file(
            alloc,
            name,
            &ring_fault(alloc, bytes.as_slice()),
            notes,
        ),
    }
}
