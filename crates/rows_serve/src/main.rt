//! Layer 8, rows: what requests ask a node for, and what a node answers to the bytes of a connection.
//!
//! Each line of the input is a row: its kind, then what it is given, with a tab before each part. For each row the program writes a line
//! with what was answered. A line that begins with `#` tells what the rows behind it are about, and is written as it stands. The rows are
//! answered by the node that the last `node` row made.
#![tactic(auto)]

mod asks;
mod nodes;
mod peers;
mod requests;
mod words;
mod written;

use fed_base::{Memory, OpensLedgers, Text};
use fed_serve::Node;
use std::alloc::Global;
use std::io::{self, Print};
use std::sync::Wait;
use std::thread::Threads;
use words::cut;

// What the node answers to a row.
fn ask<R: Wait + Threads + OpensLedgers + Sync>(
    rt: &R,
    alloc: Global,
    node: &Node,
    kind: &str,
    given: &str,
) -> Result<Text, Memory> {
    match kind {
        "ask" => asks::ask(rt, alloc, node, given),
        "pieces" => asks::pieces(rt, alloc, node, given),
        "cut" => asks::cut_short(rt, alloc, node, given),
        "reads" => asks::reads(rt, alloc, node, given),
        "writes" => asks::writes(rt, alloc, node, given),
        "each-reading" => asks::each_reading(rt, alloc, node, given),
        "each-writing" => asks::each_writing(rt, alloc, node, given),
        _ => Text::of(alloc, b"no such row"),
    }
}

// What is answered to a row, which may keep a node for those behind it.
fn answer<R: Wait + Threads + OpensLedgers + Sync>(
    rt: &R,
    alloc: Global,
    row: &str,
    node: &mut Option<Node>,
) -> Result<Text, Memory> {
    let (kind, given) = cut(row);
    if kind == "asked" {
        return requests::asked(alloc, given);
    }
    if kind == "node" {
        drop(std::mem::replace(node, None));
        return nodes::keep(alloc, given, node);
    }
    match node {
        Some(node) => ask(rt, alloc, node, kind, given),
        None => Text::of(alloc, b"no node"),
    }
}

// Writes what was answered, as a line.
fn write<R: Print>(rt: &R, told: Result<Text, Memory>) -> io::Result<()> {
    match told {
        Ok(told) => match std::str::from_utf8(told.as_slice()) {
            Ok(told) => println!(rt; "{told}"),
            Err(_) => println!(rt; "no UTF-8"),
        },
        Err(Memory) => println!(rt; "out of memory"),
    }
}

// Answers the row that a line is.
fn step<R: Print + Wait + Threads + OpensLedgers + Sync>(
    rt: &R,
    alloc: Global,
    line: io::Result<String>,
    node: &mut Option<Node>,
) -> io::Result<()> {
    let line = line?;
    let row = line.as_str();
    if row.starts_with('#') {
        return println!(rt; "{row}");
    }
    write(rt, answer(rt, alloc, row, node))
}

fn main(rt: HostRuntime) -> io::Result<()> {
    let alloc = rt.alloc();
    let mut node = None;
    let mut done = Ok(());
    for line in rt.lines(alloc) {
        done = step(&rt, alloc, line, &mut node);
        if done.is_err() {
            break;
        }
    }
    drop(node);
    done
}
