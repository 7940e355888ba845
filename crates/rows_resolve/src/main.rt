//! Layer 8, rows: what a resolver answers over webs in memory.
//!
//! Each line of the input is a row: its kind, then what it is given, with a tab before each part. For each row the program writes a line
//! with what was answered. A line that begins with `#` tells what the rows behind it are about, and is written as it stands. Rows keep
//! signed texts and pages under names; a `web` row says which pages there are, and a `book` row opens an empty cache and a book, on which
//! the `resolve` and `rotate` rows behind it make their calls.
#![tactic(auto)]

mod desk;
mod keys;
mod names;
mod pages;
mod replies;
mod texts;
mod told;
mod words;

ghost use Rattle.statement_shelf.specs.Passes.{IsPassOfAll};

use fed_base::{Memory, OpensLedgers, Seq, Text};
use fed_net::NamedPage;
use pages::Shop;
use statement_shelf::{Commons, FedPass};
use std::alloc::Global;
use std::io::{self, Print};
use std::sync::Wait;
use std::thread::Threads;
use words::at;

// What rows have made for those behind them.
#[derive(Drop)]
struct Room {
    shop: Shop,
    web: Seq<NamedPage>,
}

// What is answered to a row that makes something.
fn make(alloc: Global, room: &mut Room, row: &str) -> Result<Text, Memory> {
    match at(row, 0) {
        "leaf" | "superior" => texts::configuration(alloc, &mut room.shop, row),
        "states" => texts::statements(alloc, &mut room.shop, row),
        "mark" | "delegation" => texts::mark(alloc, &mut room.shop, row),
        "page" => texts::pages(alloc, &mut room.shop, row),
        "bounds" => desk::bounds(alloc, &mut room.shop, row),
        "web" => {
            room.web = room.shop.web(alloc, at(row, 1))?;
            Text::of(alloc, b"a web")
        }
        _ => Text::of(alloc, b"no such row"),
    }
}

// What is answered to a row.
fn answer<R: Wait + Threads + OpensLedgers + Sync>(
    rt: &R,
    alloc: Global,
    room: &mut Room,
    commons: &mut Commons,
    pass: &mut FedPass,
    row: &str,
) -> Result<Text, Memory>
    requires { IsPassOfAll commons.old pass.old }
    ensures { IsPassOfAll commons.new pass.new }
{
    match at(row, 0) {
        "book" => desk::open(alloc, &mut room.shop, commons, pass, row),
        "rotate" => desk::rotate(rt, alloc, &mut room.shop, commons, pass, row),
        "resolve" => desk::resolved(rt, alloc, &mut room.shop, &room.web, commons, pass, row),
        _ => make(alloc, room, row),
    }
}

// Writes what was answered, as a line.
fn write<R: Print>(rt: &R, told: Result<Text, Memory>) -> io::Result<()> {
    match told {
        Ok(told) => match std::str::from_utf8(told.as_slice()) {
            Ok(told) => println!(rt; "{told}"),
            Err(_) => println!(rt; "no UTF-8"),
        },
        Err(Memory) => println!(rt; "out of memory"),
    }
}

// Answers the row that a line is.
fn step<R: Print + Wait + Threads + OpensLedgers + Sync>(
    rt: &R,
    alloc: Global,
    line: io::Result<String>,
    room: &mut Room,
    commons: &mut Commons,
    pass: &mut FedPass,
) -> io::Result<()>
    requires { IsPassOfAll commons.old pass.old }
    ensures { IsPassOfAll commons.new pass.new }
{
    let line = line?;
    let row = line.as_str();
    if row.starts_with('#') {
        return println!(rt; "{row}");
    }
    write(rt, answer(rt, alloc, room, commons, pass, row))
}

fn main(rt: HostRuntime) -> io::Result<()> {
    let alloc = rt.alloc();
    let mut room = Room {
        shop: Shop::new(alloc),
        web: Seq::new(alloc),
    };
    let Ok((mut commons, mut pass)) = Commons::new(alloc, Seq::new(alloc)) else {
        return println!(rt; "out of memory");
    };
    let mut done = Ok(());
    for line in rt.lines(alloc) {
        done = step(&rt, alloc, line, &mut room, &mut commons, &mut pass);
        if done.is_err() {
            break;
        }
    }
    done
}
