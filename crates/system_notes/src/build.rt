// What the program was built from and for.

use fed_ports::{Failed, Sink, Text, write_all};
use std::fs;
use std::io::{Read, Seek, SeekFrom};
use std::rt::Files;

// What stands between the program's bytes and the lines that the script `fed` writes behind them.
const MARK: &[u8] = b"\nfed-build\n";

// In how many bytes at its end these stand.
const ROOM: usize = 256;

/// Whether the words ask for the version alone.
pub(crate) fn is_version(words: &[Text]) -> bool {
    match words {
        [word] => word.as_slice() == b"--version".as_slice(),
        _ => false,
    }
}

/// Writes the commit that the program was built from and the target that it was built for, a line each, where the script `fed` built it.
pub(crate) fn tell_of_build<R: Files, K: Sink>(rt: &R, out: &mut K) -> Result<(), Failed> {
    let mut bytes = [0; ROOM];
    match behind_mark(end_of_program(rt, &mut bytes)) {
        Some(lines) => write_all(out, lines),
        None => Ok(()),
    }
}

// The bytes at the end of the program's own file, or none where they can't be read.
fn end_of_program<'a, R: Files>(rt: &R, bytes: &'a mut [u8; ROOM]) -> &'a [u8] {
    let Ok(mut program) = fs::open(rt, "/proc/self/exe") else {
        return &[];
    };
    if program.seek(SeekFrom::End(-256)).is_err() {
        return &[];
    }
    match program.read(bytes) {
        Ok(count) => &bytes[..count],
        Err(_) => &[],
    }
}

fn behind_mark(bytes: &[u8]) -> Option<&[u8]> {
    if let Some(lines) = bytes.strip_prefix(MARK) {
        return Some(lines);
    }
    let (_, rest) = bytes.split_first()?;
    behind_mark(rest)
}
