//! Layer 8, rows: what the calls on key rings answer, and what they leave in the store.
//!
//! Each line of the input is a row: its kind, then what it is given, with a tab before each part. For each row the program writes a line
//! with what was answered. A line that begins with `#` tells what the rows behind it are about, and is written as it stands.
#![tactic(auto)]

mod steps;
mod terms;
mod words;

use fed_base::{Memory, Text};
use std::alloc::Global;
use std::io;
use words::cut;

// What is answered to a row.
fn answer(alloc: Global, row: &str) -> Result<Text, Memory> {
    let (kind, given) = cut(row);
    match kind {
        "first" => steps::first(alloc, given),
        "ring" => steps::ring(alloc, given),
        _ => Text::of(alloc, b"no such row"),
    }
}

fn main(rt: HostRuntime) -> io::Result<()> {
    let alloc = rt.alloc();
    for line in rt.lines(alloc) {
        let line = line?;
        if line.as_str().starts_with('#') {
            println!(rt; "{}", line.as_str())?;
            continue;
        }
        match answer(alloc, line.as_str()) {
            Ok(told) => match std::str::from_utf8(told.as_slice()) {
                Ok(told) => println!(rt; "{told}")?,
                Err(_) => println!(rt; "no UTF-8")?,
            },
            Err(Memory) => println!(rt; "out of memory")?,
        }
    }
    Ok(())
}
