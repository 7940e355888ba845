//! Layer 8, rows: what searches for chains want of webs, and how they end.
//!
//! Each line of the input is a row: `search` or `lattice`, then what it is given, with a tab before each part. For each row the program
//! writes a line with what was counted and how the search ended. A line that begins with `#` tells what the rows behind it are about, and
//! is written as it stands.
#![tactic(auto)]

mod driving;
mod lattices;
mod names;
mod rows;
mod web;
mod words;

use fed_base::{Memory, Text};
use std::alloc::Global;
use std::io;
use words::cut;

// What is answered to a row.
fn answer(alloc: Global, row: &str) -> Result<Text, Memory> {
    let (kind, given) = cut(row, '\t');
    match kind {
        "search" => rows::search(alloc, given),
        "lattice" => lattices::lattice(alloc, given),
        _ => Text::of(alloc, b"no such row"),
    }
}

fn main(rt: HostRuntime) -> io::Result<()> {
    let alloc = rt.alloc();
    for line in rt.lines(alloc) {
        let line = line?;
        if line.as_str().starts_with('#') {
            println!(rt; "{}", line.as_str())?;
            continue;
        }
        match answer(alloc, line.as_str()) {
            Ok(told) => match std::str::from_utf8(told.as_slice()) {
                Ok(told) => println!(rt; "{told}")?,
                Err(_) => println!(rt; "no UTF-8")?,
            },
            Err(Memory) => println!(rt; "out of memory")?,
        }
    }
    Ok(())
}
