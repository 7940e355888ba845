//! Layer 8, rows: what a request for a registration is answered.
//!
//! Each line of the input is a row: its kind, then what it is given, with a tab before each part. For each row the program writes a line
//! with what was answered. A line that begins with `#` tells what the rows behind it are about, and is written as it stands. Rows keep
//! signed texts under names, of which `register` rows make what is posted and what is found.
#![tactic(auto)]

mod posts;
mod requests;
mod texts;
mod told;
mod words;

use fed_base::{Memory, OpensLedgers, Text};
use std::alloc::Global;
use std::io;
use texts::Texts;
use words::at;

// What is answered to a row.
fn answer<R: OpensLedgers>(
    rt: &R,
    alloc: Global,
    texts: &mut Texts,
    row: &str,
) -> Result<Text, Memory> {
    match at(row, 0) {
        "seal" => texts::seal(alloc, texts, row),
        "spoil" => texts::spoil(alloc, texts, row),
        "register" => requests::register(rt, alloc, texts, row),
        _ => Text::of(alloc, b"no such row"),
    }
}

fn main(rt: HostRuntime) -> io::Result<()> {
    let alloc = rt.alloc();
    let mut texts = Texts::new(alloc);
    for line in rt.lines(alloc) {
        let line = line?;
        if line.as_str().starts_with('#') {
            println!(rt; "{}", line.as_str())?;
            continue;
        }
        match answer(&rt, alloc, &mut texts, line.as_str()) {
            Ok(told) => match std::str::from_utf8(told.as_slice()) {
                Ok(told) => println!(rt; "{told}")?,
                Err(_) => println!(rt; "no UTF-8")?,
            },
            Err(Memory) => println!(rt; "out of memory")?,
        }
    }
    Ok(())
}
