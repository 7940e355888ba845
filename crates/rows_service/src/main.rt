//! Layer 8, rows: threads of a service, each of which waits for what another does.
//!
//! Each line of the input names a test, and for each the program writes a line with what came of it. A line that begins with `#` tells what
//! the test behind it is about, and is written as it stands. A test waits on a word that threads share, and looks at it at most
//! 1,000,000,000 times; where it looked so often, something fails, and its line is another.
#![tactic(auto)]

mod authority;
mod desks;
mod federation;
mod flag;
mod link;
mod lone;
mod network;
mod peer;
mod resolver;
mod service;
mod words;

use fed_base::{Memory, OpensLedgers, Seq, Text};
use fed_net::NamedPage;
use std::alloc::Global;
use std::io::{self, Print};
use std::sync::Wait;
use std::thread::Threads;

// What came of the test of that name.
fn answer<R: Threads + Wait + OpensLedgers + Sync>(
    rt: &R,
    alloc: Global,
    web: &Seq<NamedPage>,
    name: &str,
) -> Result<Text, Memory> {
    match name {
        "two_desks_meet" => desks::two_desks_meet(rt, alloc, web),
        "link_waits_alone" => desks::link_waits_alone(rt, alloc, web),
        "shared_hit" => desks::shared_hit(rt, alloc, web),
        "lone_client" => lone::lone_client(rt, alloc),
        "authority_in_memory" => authority::authority_in_memory(rt, alloc),
        "authority_of_one" => authority::authority_of_one(rt, alloc),
        "authority_of_streams" => authority::authority_of_streams(rt, alloc),
        _ => Text::of(alloc, b"no such test"),
    }
}

// Writes what came of a test behind its name, as a line.
fn write<R: Print>(rt: &R, name: &str, told: Result<Text, Memory>) -> io::Result<()> {
    match told {
        Ok(told) => match std::str::from_utf8(told.as_slice()) {
            Ok(told) => println!(rt; "{name} {told}"),
            Err(_) => println!(rt; "{name} no UTF-8"),
        },
        Err(Memory) => println!(rt; "{name} out of memory"),
    }
}

// Does the test that a line names.
fn step<R: Print + Threads + Wait + OpensLedgers + Sync>(
    rt: &R,
    alloc: Global,
    web: &Seq<NamedPage>,
    line: io::Result<String>,
) -> io::Result<()> {
    let line = line?;
    let row = line.as_str();
    if row.starts_with('#') {
        return println!(rt; "{row}");
    }
    write(rt, row, answer(rt, alloc, web, row))
}

fn main(rt: HostRuntime) -> io::Result<()> {
    let alloc = rt.alloc();
    let Ok(web) = federation::web(alloc) else {
        return println!(rt; "out of memory");
    };
    let mut done = Ok(());
    for line in rt.lines(alloc) {
        done = step(&rt, alloc, &web, line);
        if done.is_err() {
            break;
        }
    }
    drop(web);
    done
}
