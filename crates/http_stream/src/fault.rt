// Why a stream isn't served to its end.

use fed_ports::Memory as NoMemory;
use http_messages::Break;
use thiserror::Error;

/// Why a stream isn't served to its end. What was written is a prefix of the responses to the requests that were read so far.
#[derive(Clone, Copy, Debug, PartialEq, Eq, Drop, Error)]
pub enum StreamFault {
    /// The peer failed to give bytes: its count of such faults rose in the call, or stands at its last value, 2^64 - 1.
    #[error("a request could not be read")]
    ReadFault,
    /// The peer failed to take bytes: its count of such faults rose in the call, or stands at its last value, 2^64 - 1.
    #[error("a response could not be written")]
    WriteFault,
    /// The bytes end inside a request.
    #[error("a request ends early")]
    Ended,
    /// Memory was wanting. Where it was for a response, that is said in its place; else nothing more is written.
    #[error("out of memory")]
    Memory,
}

impl From<NoMemory> for StreamFault {
    ghost use Rattle.http_stream.specs.declared.fault.StreamFault.TheVariants.{Memory};
    ghost use Rattle.std.specs.Prelude.{◌≡◌};

    ghost from_gives = { λ _ e. e ≡ Memory };

    fn from(_: NoMemory) -> Self {
        StreamFault::Memory
    }
}

impl From<Break> for StreamFault {
    ghost use Rattle.http_stream.specs.Cuttings.{fault_of};
    ghost use Rattle.std.specs.Prelude.{◌≡◌};

    ghost from_gives = { λ broke e. e ≡ fault_of broke };

    fn from(broke: Break) -> Self {
        match broke {
            Break::Failed => StreamFault::ReadFault,
            Break::Memory => StreamFault::Memory,
        }
    }
}
