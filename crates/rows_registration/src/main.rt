//! Layer 8, rows: what the node of a configuration file registers of what is posted.
//!
//! Each line of the input names a test, and for each the program writes a line with what came of it. A line that begins with `#` tells what
//! the test behind it is about, and is written as it stands.
#![tactic(auto)]

mod federation;
mod node;
mod registration;
mod words;

use fed_base::{Memory, OpensLedgers, Seq, Text};
use std::alloc::Global;
use std::io::{self, Print};
use std::sync::Wait;
use std::thread::Threads;

// What came of the test of that name.
fn answer<R: Threads + Wait + OpensLedgers + Sync>(
    rt: &R,
    alloc: Global,
    published: &Seq<Text>,
    name: &str,
) -> Result<Text, Memory> {
    match name {
        "posted_chain" => registration::posted_chain(rt, alloc, published),
        "posted_configuration" => registration::posted_configuration(rt, alloc, published),
        "posted_and_failing" => registration::posted_and_failing(rt, alloc, published),
        "posted_elsewhere" => registration::posted_elsewhere(rt, alloc, published),
        _ => Text::of(alloc, b"no such test"),
    }
}

// Writes what came of a test behind its name, as a line.
fn write<R: Print>(rt: &R, name: &str, told: Result<Text, Memory>) -> io::Result<()> {
    match told {
        Ok(told) => match std::str::from_utf8(told.as_slice()) {
            Ok(told) => println!(rt; "{name} {told}"),
            Err(_) => println!(rt; "{name} no UTF-8"),
        },
        Err(Memory) => println!(rt; "{name} out of memory"),
    }
}

// Does the test that a line names.
fn step<R: Print + Threads + Wait + OpensLedgers + Sync>(
    rt: &R,
    alloc: Global,
    published: &Seq<Text>,
    line: io::Result<String>,
) -> io::Result<()> {
    let line = line?;
    let row = line.as_str();
    if row.starts_with('#') {
        return println!(rt; "{row}");
    }
    write(rt, row, answer(rt, alloc, published, row))
}

fn main(rt: HostRuntime) -> io::Result<()> {
    let alloc = rt.alloc();
    let Ok(published) = federation::published(alloc) else {
        return println!(rt; "out of memory");
    };
    let mut done = Ok(());
    for line in rt.lines(alloc) {
        done = step(&rt, alloc, &published, line);
        if done.is_err() {
            break;
        }
    }
    drop(published);
    done
}
