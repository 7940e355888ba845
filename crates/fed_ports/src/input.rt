// A whole input.

ghost use Rattle.std.specs.Prelude.{◌≡◌, ◌≤◌, MatchResult};
ghost use Rattle.fed_ports.specs.Inputs.{EndsAs, IsWholeInput};

use crate::source::Source;
use crate::store::FILE_LIMIT;
use fed_base::Text;
use std::alloc::Global;

/// Why a reading ended without the whole input.
#[derive(Clone, Copy, Debug, PartialEq, Eq)]
pub enum ReadEnd {
    /// The source failed.
    Failed,
    /// The input has more than 4,194,304 bytes.
    TooLong,
    /// Memory was wanting.
    Memory,
}

/// The whole input, read to its end. It has at most 4,194,304 bytes, as a file has.
pub fn read_all<S: Source>(alloc: Global, input: &mut S) -> Result<Text, ReadEnd>
    ensures later { S.read_faults input.old ≤ S.read_faults input.new }
    ensures read { MatchResult result
        (IsWholeInput (S.left input.old) (S.left input.new) (S.read_faults input.old) (S.read_faults input.new))
        (EndsAs (S.left input.old) (S.left input.new) (S.read_faults input.old) (S.read_faults input.new)) }
{
    let mut bytes = Text::new(alloc);
    let mut piece = [0u8; 8192];
    'pieces: while bytes.len() <= FILE_LIMIT {
        let Ok(n) = input.take(&mut piece) else {
            return Err(ReadEnd::Failed);
        };
        if n == 0 {
            return Ok(bytes);
        }
        if bytes.append(&piece[..n]).is_err() {
            return Err(ReadEnd::Memory);
        }
    }
    Err(ReadEnd::TooLong)
}
