//! Layer 8, rows: what is read as a request, how responses are written, and which pages answers are.
//!
//! Each line of the input is a row: its kind, then what it is given, with a tab before each part. For each row the program writes a line
//! with what was answered. A line that begins with `#` tells what the rows behind it are about, and is written as it stands.
#![tactic(auto)]

mod adapters;
mod answers;
mod asks;
mod pages;
mod pieces;
mod streams;
mod words;

use fed_base::{Memory, Text};
use std::alloc::Global;
use std::io;
use words::cut;

// What is answered to a row.
fn answer(alloc: Global, row: &str) -> Result<Text, Memory> {
    let (kind, given) = cut(row);
    match kind {
        "ask" => asks::ask(alloc, given),
        "cut" => asks::cut_short(alloc, given),
        "fail" => asks::failing(alloc, given),
        "write" => answers::write(alloc, given),
        "page" => pages::page(alloc, given),
        "ends" => pages::cut_short(alloc, given),
        "lost" => pages::lost(alloc, given),
        "sent" => pages::sent(alloc, given),
        "posted" => pages::posted(alloc, given),
        "stream" => streams::stream(alloc, given),
        "parted" => streams::cut_short(alloc, given),
        "peer" => adapters::peer(alloc, given),
        "link" => adapters::linked(alloc, given),
        _ => Text::of(alloc, b"no such row"),
    }
}

fn main(rt: HostRuntime) -> io::Result<()> {
    let alloc = rt.alloc();
    for line in rt.lines(alloc) {
        let line = line?;
        if line.as_str().starts_with('#') {
            println!(rt; "{}", line.as_str())?;
            continue;
        }
        match answer(alloc, line.as_str()) {
            Ok(told) => match std::str::from_utf8(told.as_slice()) {
                Ok(told) => println!(rt; "{told}")?,
                Err(_) => println!(rt; "no UTF-8")?,
            },
            Err(Memory) => println!(rt; "out of memory")?,
        }
    }
    Ok(())
}
