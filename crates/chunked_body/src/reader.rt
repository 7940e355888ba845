// Bodies in chunks, in whatever pieces they come.

ghost use Rattle.std.specs.Prelude.{◌≡◌, ◌≤◌, ◌<◌, ◌+◌, ◌⊎◌, ◌++◌, ℕ, Bool, true, false, List, [], length, take, IfOk, OnOk};
ghost use Rattle.chunked_body.specs.Answers.{IsChunked};

use crate::place::{Place, behind, counted, next};
use fed_base::{Memory, Text};
use std::alloc::Global;

const FORM_LIMIT: u64 = 1_048_576;

/// What a body in chunks is: its bytes, at most 262,144; or more than may be, by its sizes or by the bytes of its form, which may be
/// 1,048,576; or not of the form, or cut short.
#[derive(Drop)]
pub enum Chunked {
    Whole(Text),
    TooLong,
    Broken,
}

/// A reading of a body in chunks. Trailers aren't read: it is over behind the line of the last chunk.
#[derive(Drop)]
pub struct ChunkReader {
    place: Place,
    room: u64,
    body: Text,
}

impl ChunkReader {
    ghost use Rattle.chunked_body.specs.Readers.{HasRead, is_over, reading, room_of};
    ghost use Rattle.chunked_body.specs.Readings.{is_final, run, step};

    /// A reading of which no byte has come. It takes no memory.
    pub fn new(alloc: Global) -> ChunkReader
        ensures { HasRead result [] }
    {
        ChunkReader {
            place: Place::Line,
            room: FORM_LIMIT,
            body: Text::new(alloc),
        }
    }

    /// What the body is is known, however it goes on.
    pub fn is_over(&self) -> bool
        ensures { result ≡ is_over self.now }
    {
        self.place.is_over()
    }

    // Takes the next bytes of a chunk, behind the first of which so many come.
    fn take_data(&mut self, more: u64, piece: &[u8]) -> Result<usize, Memory>
        requires place { self.old.place ≡ Place.Data more }
        requires room { 0 < self.old.room }
        requires piece { 0 < length piece.now }
        ensures within { IfOk result (λ n. (1 ≤ n) × (n ≤ length piece.now)) }
        ensures read { IfOk result (λ n. reading self.new ≡ run (reading self.old) (take n piece.now)) }
    {
        let n = 1 + more.min(self.room - 1).min(piece.len() as u64 - 1);
        self.body.append(&piece[..n as usize])?;
        self.room -= n;
        self.place = behind(more, n);
        Ok(n as usize)
    }

    // Takes one byte.
    fn take_one(&mut self, byte: u8) -> Result<(), Memory>
        ensures { OnOk result (reading self.new ≡ step (reading self.old) byte) }
    {
        let place = counted(self.room, next(self.body.len() as u64, self.place, byte));
        if self.place.takes() {
            self.body.push(byte)?;
        }
        self.place = place;
        self.room = self.room.saturating_sub(1);
        Ok(())
    }

    // Takes the next bytes of a chunk, or one other.
    fn take_some(&mut self, piece: &[u8]) -> Result<usize, Memory>
        requires goes_on { is_over self.old ≡ false }
        requires piece { 0 < length piece.now }
        ensures within { IfOk result (λ n. (1 ≤ n) × (n ≤ length piece.now)) }
        ensures read { IfOk result (λ n. reading self.new ≡ run (reading self.old) (take n piece.now)) }
    {
        match self.place {
            Place::Data(more) if self.room > 0 => self.take_data(more, piece),
            _ => {
                self.take_one(piece[0])?;
                Ok(1)
            }
        }
    }

    /// Takes what comes next; what stands behind the end is let go. After `Memory` the reading is to be dropped.
    pub fn take(&mut self, piece: &[u8]) -> Result<(), Memory>
        ensures read { OnOk result ((x : List ℕ) → HasRead self.old x → HasRead self.new (x ++ piece.now)) }
        // While it goes on, each byte takes one of the 1,048,576 that may come.
        ensures room { OnOk result ((room_of self.new ≤ room_of self.old) × (is_over self.new ≡ false → room_of self.new + length piece.now ≤ room_of self.old)) }
    {
        let mut at = 0;
        while at < piece.len() && !self.is_over() {
            at += self.take_some(&piece[at..])?;
        }
        Ok(())
    }

    /// What the body is, where the reading is over or the bytes have ended.
    pub fn end(self) -> Chunked
        ensures { (x : List ℕ) (ended : Bool) → HasRead self x → (is_over self ≡ true) ⊎ (ended ≡ true) → IsChunked x ended result }
    {
        match self.place {
            Place::Done => Chunked::Whole(self.body),
            Place::Over => Chunked::TooLong,
            _ => Chunked::Broken,
        }
    }
}
