//! Layer 8, rows: what the calls of the base, the outside, the texts and the sealed texts answer.
//!
//! Each line of the input is a row: the name of a call or of a group of calls, then what it is given, with a tab before each part. For each
//! row the program writes a line with what was answered. In both, `%` and two hexadecimal digits stand for a byte that isn't printed as it
//! is. A line that begins with `#` tells what the rows behind it are about, and is written as it stands.
#![tactic(auto)]

mod json_rows;
mod jws_rows;
mod key_rows;
mod port_rows;
mod seal_rows;
mod set_rows;
mod spelling;
mod store_rows;

use fed_base::{Memory, OpensLedgers, Text};
use spelling::{cut, spelled};
use std::alloc::Global;
use std::fs::File;
use std::io::{self, Eprint, Print};
use std::rt::Files;
use std::time::Clock;

// What a row answers that asks for nothing but memory.
fn answer(alloc: Global, kind: &str, given: &str) -> Result<Text, Memory> {
    match kind {
        "lists" => port_rows::lists(alloc, given),
        "source" => port_rows::source(alloc, given),
        "sink" => port_rows::sink(alloc, given),
        "adapters" => port_rows::adapters(alloc, given),
        "clock" => port_rows::clock(alloc, given),
        "store" => store_rows::memory(alloc, given),
        "decode" => jws_rows::decode(alloc, given),
        "decode_32" => jws_rows::decode_32(alloc, given),
        "split" => jws_rows::split(alloc, given),
        "long" => jws_rows::long(alloc, given),
        "join" => jws_rows::join(alloc, given),
        "json" => json_rows::json(alloc, given),
        "nested" => json_rows::nested(alloc, given),
        "built" => json_rows::built(alloc, given),
        "find" => json_rows::find(alloc, given),
        "sets" => set_rows::sets(alloc, given),
        "keys" => key_rows::keys(alloc, given),
        "as_many_keys" => key_rows::as_many(alloc, given),
        "key_of" => key_rows::key_of(alloc, given),
        "thumbprint" => key_rows::thumbprint(alloc, given),
        _ => Ok(Text::of(alloc, b"no such row")?),
    }
}

// What is answered to a row.
fn answer_row<R: Files<File = File> + AllocGlobal + Eprint + Clock + OpensLedgers + Sync>(
    rt: &R,
    alloc: Global,
    row: &str,
    sealed: &mut Text,
) -> Result<Text, Memory> {
    let (kind, given) = cut(row);
    match kind {
        "real_store" => store_rows::real(rt, alloc, given),
        "real_clock" => store_rows::clock(rt, alloc),
        "seal" => seal_rows::seal(alloc, given, sealed),
        "test" => seal_rows::test(rt, alloc, given, sealed),
        "check" => seal_rows::check(rt, alloc, given, sealed),
        "check_text" => seal_rows::check_text(rt, alloc, given),
        _ => answer(alloc, kind, given),
    }
}

// Writes what was answered, as a line.
fn write<R: Print>(rt: &R, alloc: Global, told: Result<Text, Memory>) -> io::Result<()> {
    match told.and_then(|told| spelled(alloc, &told)) {
        Ok(told) => println!(rt; "{}", told.as_str()),
        Err(Memory) => println!(rt; "out of memory"),
    }
}

fn main(rt: HostRuntime) -> io::Result<()> {
    let alloc = rt.alloc();
    let mut sealed = Text::new(alloc);
    for line in rt.lines(alloc) {
        let line = line?;
        let row = line.as_str();
        if row.starts_with('#') {
            println!(rt; "{row}")?;
        } else {
            write(&rt, alloc, answer_row(&rt, alloc, row, &mut sealed))?;
        }
    }
    Ok(())
}
