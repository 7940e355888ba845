// The program's own input and output. They tell no bytes.

ghost use Rattle.std.specs.Prelude.{◌≡◌, None};

use crate::sink::Sink;
use crate::source::Source;
use fed_base::Failed;
use std::io::{Read, Write};

// How many bytes a reading takes at most.
const PIECE: usize = 8192;

/// A source over a reader of the standard library, as standard input.
#[derive(Drop)]
pub struct RealSource<R: Read + Drop> {
    reader: R,
    faults: u64,
}

impl<R: Read + Drop> RealSource<R> {
    /// A source that has not failed yet.
    pub fn new(reader: R) -> RealSource<R>
        ensures { ⟦<RealSource<R> as Source>⟧.read_faults result ≡ 0 }
    {
        RealSource { reader, faults: 0 }
    }
}

impl<R: Read + Drop> Source for RealSource<R> {
    ghost left = { λ _. None };

    ghost source_side = { λ _. (None, 0) };

    ghost read_faults = { λ source. source.faults };

    fn take(&mut self, into: &mut [u8]) -> Result<usize, Failed> {
        // A reader may write into what it is given and fail all the same, so it isn't given the caller's buffer.
        let mut piece = [0u8; PIECE];
        let most = into.len().min(PIECE);
        match self.reader.read(&mut piece[..most]) {
            Ok(n) => {
                into[..n].copy_from_slice(&piece[..n]);
                Ok(n)
            }
            Err(_) => {
                self.faults = self.faults.saturating_add(1);
                Err(Failed)
            }
        }
    }
}

/// A sink over a writer of the standard library, as standard output. A write that takes nothing is a failure.
#[derive(Drop)]
pub struct RealSink<W: Write + Drop> {
    writer: W,
    faults: u64,
}

impl<W: Write + Drop> RealSink<W> {
    /// A sink that has not failed yet.
    pub fn new(writer: W) -> RealSink<W>
        ensures { ⟦<RealSink<W> as Sink>⟧.write_faults result ≡ 0 }
    {
        RealSink { writer, faults: 0 }
    }
}

impl<W: Write + Drop> Sink for RealSink<W> {
    ghost held = { λ _. None };

    ghost sink_side = { λ _. (None, 0) };

    ghost write_faults = { λ sink. sink.faults };

    fn give(&mut self, piece: &[u8]) -> Result<usize, Failed> {
        match self.writer.write(piece) {
            Ok(n) if n > 0 => Ok(n),
            _ => {
                self.faults = self.faults.saturating_add(1);
                Err(Failed)
            }
        }
    }
}
