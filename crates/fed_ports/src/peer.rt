// One end of a connection.

ghost use Rattle.std.specs.Prelude.{◌≡◌};

use crate::sink::Sink;
use crate::source::Source;

/// One end of a connection: what the other end sent is read from it, and what is given to it goes to the other end.
pub trait Peer: Source + Sink {
    /// Reading leaves what was given, and the count of failed writes.
    ghost source_side_is: { (peer : Self) → Self.source_side peer ≡ (Self.held peer, Self.write_faults peer) };

    /// Giving leaves what is left to read, and the count of failed reads.
    ghost sink_side_is: { (peer : Self) → Self.sink_side peer ≡ (Self.left peer, Self.read_faults peer) };
}
