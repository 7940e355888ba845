// Reading and writing of a connection of TCP, for a time.

ghost use Rattle.std.specs.Prelude.{◌≡◌, ◌≤◌, length, IfSome, IfNone};

use std::io::{Read, Write};
use std::net::TcpStream;
use std::time::Duration;

// How many bytes a reading takes at most.
const PIECE: usize = 8192;

/// Reads what comes in that time. `None` where nothing came or the reading failed.
pub fn read(stream: &mut TcpStream, wait: Option<Duration>, into: &mut [u8]) -> Option<usize>
    ensures within { IfSome result (λ n. n ≤ length into.old) }
    ensures buffer { IfNone result (into.new ≡ into.old) }
{
    stream.set_read_timeout(Some(wait?)).ok()?;
    // A reading may write into what it is given and fail all the same, so it isn't given the caller's buffer.
    let mut piece = [0u8; PIECE];
    let most = into.len().min(PIECE);
    let n = stream.read(&mut piece[..most]).ok()?;
    into[..n].copy_from_slice(&piece[..n]);
    Some(n)
}

/// Writes what is taken in that time, by one call of the system. `None` where nothing was taken or the writing failed.
pub fn write(stream: &mut TcpStream, wait: Option<Duration>, piece: &[u8]) -> Option<usize>
    ensures within { IfSome result (λ n. (1 ≤ n) × (n ≤ length piece.now)) }
{
    stream.set_write_timeout(Some(wait?)).ok()?;
    let n = stream.write(piece).ok()?;
    if n == 0 { None } else { Some(n) }
}
