//! Layer 8, rows: what a node's configuration says, or which member of it isn't of its form, and what a node answers as an authority.
//!
//! Each line of the input is a row: its kind, then what it is given, with a tab before each part. For each row the program writes a line
//! with what was answered. A line that begins with `#` tells what the rows behind it are about, and is written as it stands.
#![tactic(auto)]

mod answers;
mod configs;
mod nodes;
mod signed;
mod words;

use authority_core::Registry;
use fed_base::{Memory, OpensLedgers, Text};
use std::alloc::Global;
use std::io::{self, Print};
use words::cut;

// What is answered to a row, which may keep a text or a node for those behind it.
fn answer<R: OpensLedgers>(
    rt: &R,
    alloc: Global,
    row: &str,
    text: &mut Text,
    node: &mut Option<Registry>,
) -> Result<Text, Memory> {
    let (kind, given) = cut(row);
    match kind {
        "config" => configs::config(alloc, given),
        "text" => nodes::keep_text(alloc, given, text),
        "letters" => nodes::keep_letters(alloc, given, text),
        "node" => {
            drop(std::mem::replace(node, None));
            nodes::keep_node(alloc, given, text, node)
        },
        _ => match node {
            Some(node) => answers::ask(rt, alloc, node, kind, given, text),
            None => Text::of(alloc, b"no node"),
        },
    }
}

// Writes what was answered, as a line.
fn write<R: Print>(rt: &R, told: Result<Text, Memory>) -> io::Result<()> {
    match told {
        Ok(told) => match std::str::from_utf8(told.as_slice()) {
            Ok(told) => println!(rt; "{told}"),
            Err(_) => println!(rt; "no UTF-8"),
        },
        Err(Memory) => println!(rt; "out of memory"),
    }
}

// Answers the row that a line is.
fn step<R: Print + OpensLedgers>(
    rt: &R,
    alloc: Global,
    line: io::Result<String>,
    text: &mut Text,
    node: &mut Option<Registry>,
) -> io::Result<()> {
    let line = line?;
    let row = line.as_str();
    if row.starts_with('#') {
        return println!(rt; "{row}");
    }
    write(rt, answer(rt, alloc, row, text, node))
}

fn main(rt: HostRuntime) -> io::Result<()> {
    let alloc = rt.alloc();
    let mut text = Text::new(alloc);
    let mut node = None;
    let mut done = Ok(());
    for line in rt.lines(alloc) {
        done = step(&rt, alloc, line, &mut text, &mut node);
        if done.is_err() {
            break;
        }
    }
    drop(node);
    done
}
