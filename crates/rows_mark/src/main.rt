//! Layer 8, rows: what the calls on trust marks answer.
//!
//! Each line of the input is a row: its kind, then what it is given, with a tab before each part. For each row the program writes a line
//! with what was answered. A line that begins with `#` tells what the rows behind it are about, and is written as it stands.
#![tactic(auto)]

mod heed_rows;
mod read_rows;
mod seal_rows;
mod verify_rows;
mod words;

use fed_base::{Memory, OpensLedgers, Text};
use heed_rows::Returned;
use std::alloc::Global;
use std::io;
use words::cut;

// What is answered to a row that keeps nothing.
fn answer<R: OpensLedgers>(
    rt: &R,
    alloc: Global,
    kind: &str,
    given: &str,
    kept: &Text,
) -> Result<Text, Memory> {
    match kind {
        "mark" => read_rows::mark(alloc, given),
        "delegation" => read_rows::delegation(alloc, given),
        "status" => read_rows::status(alloc, given),
        "verify" => verify_rows::verify(rt, alloc, given, kept),
        _ => Text::of(alloc, b"no such row"),
    }
}

// What is answered to a row that keeps a text.
fn keep(alloc: Global, kind: &str, given: &str, kept: &mut Text) -> Result<Text, Memory> {
    *kept = match kind {
        "seal" => seal_rows::seal(alloc, given, kept)?,
        "grow" => seal_rows::grown(alloc, given, kept)?,
        "text" => Text::of(alloc, given.as_bytes())?,
        _ => read_rows::text_of(alloc, given)?,
    };
    Text::of(alloc, b"kept")
}

// What is answered to a row that is about marks that are asked about, which are none again when they were.
fn ask<R: OpensLedgers>(
    rt: &R,
    alloc: Global,
    kind: &str,
    given: &str,
    kept: &Text,
    returned: &mut Returned,
) -> Result<Text, Memory> {
    match kind {
        "returned" => returned.add(alloc, given, kept)?,
        "page" => returned.add_page(alloc, given, kept)?,
        _ => {
            let told = returned.heed(rt, alloc, given);
            *returned = Returned::new(alloc);
            return told;
        },
    }
    Text::of(alloc, b"kept")
}

fn main(rt: HostRuntime) -> io::Result<()> {
    let alloc = rt.alloc();
    let mut kept = Text::new(alloc);
    let mut returned = Returned::new(alloc);
    for line in rt.lines(alloc) {
        let line = line?;
        let (kind, given) = cut(line.as_str());
        let told = match kind {
            "seal" | "grow" | "unsealed" | "text" => keep(alloc, kind, given, &mut kept),
            "returned" | "page" | "heed" => ask(&rt, alloc, kind, given, &kept, &mut returned),
            _ => answer(&rt, alloc, kind, given, &kept),
        };
        if line.as_str().starts_with('#') {
            println!(rt; "{}", line.as_str())?;
            continue;
        }
        match told {
            Ok(told) => match std::str::from_utf8(told.as_slice()) {
                Ok(told) => println!(rt; "{told}")?,
                Err(_) => println!(rt; "no UTF-8")?,
            },
            Err(Memory) => println!(rt; "out of memory")?,
        }
    }
    Ok(())
}
