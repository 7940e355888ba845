//! Layer 8, rows: what is found of a resolver's reply.
//!
//! Each line of the input is a row: its kind, then what it is given, with a tab before each part. For each row the program writes a line
//! with what was answered. A line that begins with `#` tells what the rows behind it are about, and is written as it stands.
#![tactic(auto)]

mod check_rows;
mod kept;
mod seal_rows;
mod words;

use fed_base::{Memory, OpensLedgers, Text};
use kept::Kept;
use std::alloc::Global;
use std::io;
use words::cut;

// What is answered to a row.
fn answer<R: OpensLedgers>(
    rt: &R,
    alloc: Global,
    line: &str,
    kept: &mut Kept,
) -> Result<Text, Memory> {
    let (kind, given) = cut(line);
    match kind {
        "check" => check_rows::check(rt, alloc, given, kept),
        _ => keep(alloc, kind, given, kept),
    }
}

// What is answered to a row that keeps a text under a name.
fn keep(alloc: Global, kind: &str, given: &str, kept: &mut Kept) -> Result<Text, Memory> {
    let (name, given) = cut(given);
    let text = match kind {
        "key" => seal_rows::key_set(alloc, given)?,
        "seal" => seal_rows::seal(alloc, given, kept)?,
        "text" => kept.filled(alloc, given)?,
        _ => return Text::of(alloc, b"no such row"),
    };
    kept.keep(alloc, name, text)?;
    Text::of(alloc, b"kept")
}

fn main(rt: HostRuntime) -> io::Result<()> {
    let alloc = rt.alloc();
    let mut kept = Kept::new(alloc);
    for line in rt.lines(alloc) {
        let line = line?;
        if line.as_str().starts_with('#') {
            println!(rt; "{}", line.as_str())?;
            continue;
        }
        match answer(&rt, alloc, line.as_str(), &mut kept) {
            Ok(told) => match std::str::from_utf8(told.as_slice()) {
                Ok(told) => println!(rt; "{told}")?,
                Err(_) => println!(rt; "no UTF-8")?,
            },
            Err(Memory) => println!(rt; "out of memory")?,
        }
    }
    Ok(())
}
