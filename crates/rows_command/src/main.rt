//! Layer 8, rows: rows that show what commands answer over an outside of memory, and how a chain is judged by what is known.
//!
//! Each line of the input is a row: its kind, then what it is given, with a tab before each part. For each the program writes a line with
//! what was answered. A line that begins with `#` tells what the rows behind it are about, and is written as it stands.
#![tactic(auto)]

mod chain_rows;
mod judge_rows;
mod run_rows;
mod seals;

use fed_base::Memory;
use std::io;

fn main(rt: HostRuntime) -> io::Result<()> {
    let alloc = rt.alloc();
    for line in rt.lines(alloc) {
        let line = line?;
        let row = line.as_str();
        let told = match row.split_once('\t') {
            Some(("run", given)) => run_rows::told(&rt, alloc, given),
            Some(("alike", given)) => run_rows::compared(&rt, alloc, given),
            Some(("chain", given)) => chain_rows::told(&rt, alloc, given),
            Some(("judge", given)) => judge_rows::told(&rt, alloc, given),
            _ => judge_rows::copied(alloc, row),
        };
        match told {
            Ok(told) => println!(rt; "{}", told.as_str())?,
            Err(Memory) => println!(rt; "out of memory")?,
        }
    }
    Ok(())
}
