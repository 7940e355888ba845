//! Layer 8, rows: threads that make calls on one object, and whether each was answered at its place of one order.
//!
//! Each line of the input is a word, how many threads, and how many calls each makes. By `add` a thread adds its number to one sum; by
//! `keep` it puts it at the end of one list; by `want` it does so too, but the first thread asks for more memory than there is. Each thread
//! has a pass that is split from the first one, which joins them all and then reads the object. What is written doesn't depend on the
//! schedule. A line `nine` with an amount calls each object of a group instead, in one thread.
#![tactic(auto)]

mod counter;
mod nine;
mod tally;
mod team;
mod worker;

ghost use Rattle.turn_log.specs.Objects.{IsOf};
ghost use Rattle.rows_turn.specs.Tallies.{TallyStep};

use crate::tally::{Call, Reply, Tally};
use crate::team::{
    close_eight, close_four, close_two, open_eight, open_four, open_two, run_eight, run_four,
    run_two,
};
use crate::worker::{Job, Stop, Told, close_one, open_one, work};
use std::alloc::Global;
use std::io::{self, Print};
use std::sync::Wait;
use std::thread::Threads;
use turn_log::{Kept, Pass};

// How many callers there are at once.
#[derive(Clone, Copy, Drop)]
enum Size {
    One,
    Two,
    Four,
    Eight,
}

// What a line asks.
#[derive(Clone, Copy, Drop)]
struct Row {
    job: Job,
    size: Size,
}

fn read_row(line: &str) -> Option<Row> {
    let (word, rest) = line.split_once(' ')?;
    let (size, calls) = rest.split_once(' ')?;
    let calls = calls.parse::<u64>().ok()?;
    let size = match size {
        "1" => Size::One,
        "2" => Size::Two,
        "4" => Size::Four,
        "8" => Size::Eight,
        _ => return None,
    };
    let wants = word == "want";
    let keeps = wants || word == "keep";
    Some(Row {
        job: Job {
            keeps,
            wants,
            calls,
        },
        size,
    })
}

// The sum after these calls, where each was told the sum that those before it leave.
fn sum_in_order(sums: &[(u64, u64)]) -> Option<u64> {
    let mut sum = 0u64;
    for told in sums {
        if told.0 != sum {
            return None;
        }
        sum = sum.checked_add(told.1)?;
    }
    Some(sum)
}

// Runs the callers of a row, each with a pass that is split from this one and joined to it in the end.
fn run<R: Threads + Wait + Sync>(
    rt: &R,
    alloc: Global,
    kept: &Kept<Tally>,
    pass: &mut Pass<Tally>,
    row: Row,
    told: &mut Told,
) -> Result<(), Stop>
    requires { IsOf TallyStep kept.now pass.old }
    ensures { IsOf TallyStep kept.now pass.new }
{
    match row.size {
        Size::One => {
            let mut worker = open_one(rt, alloc, kept, pass);
            work(rt, alloc, kept, row.job, 1, &mut worker);
            close_one(rt, kept, pass, told, worker)
        }
        Size::Two => {
            let mut team = open_two(rt, alloc, kept, pass);
            run_two(rt, alloc, kept, row.job, 1, &mut team);
            close_two(rt, kept, pass, told, team)
        }
        Size::Four => {
            let mut team = open_four(rt, alloc, kept, pass);
            run_four(rt, alloc, kept, row.job, 1, &mut team);
            close_four(rt, kept, pass, told, team)
        }
        Size::Eight => {
            let mut team = open_eight(rt, alloc, kept, pass);
            run_eight(rt, alloc, kept, row.job, 1, &mut team);
            close_eight(rt, kept, pass, told, team)
        }
    }
}

// Runs the callers of a row, and reads the object when all are done and their passes joined.
fn read_after<R: Threads + Wait + Sync>(
    rt: &R,
    alloc: Global,
    kept: &Kept<Tally>,
    pass: &mut Pass<Tally>,
    row: Row,
    told: &mut Told,
) -> Result<Reply, Stop>
    requires { IsOf TallyStep kept.now pass.old }
    ensures { IsOf TallyStep kept.now pass.new }
{
    run(rt, alloc, kept, pass, row, told)?;
    Ok(kept.act(rt, alloc, pass, Call::Read)?)
}

// What the object of a row holds in the end. What the callers were told stands in `told`.
fn counted<R: Threads + Wait + Sync>(
    rt: &R,
    alloc: Global,
    row: Row,
    told: &mut Told,
) -> Result<Reply, Stop> {
    let first = Tally {
        sum: 0,
        values: Vec::new(alloc),
    };
    let (kept, mut pass) = Kept::new(alloc, first)?;
    let reply = read_after(rt, alloc, &kept, &mut pass, row, told);
    drop(pass);
    drop(kept);
    reply
}

// Whether the calls that added stand in one order, which leads to what the object holds, and whether it holds each value that was kept.
fn is_in_order(reply: Reply, told: &mut Told) -> Result<bool, Stop> {
    told.sums.sort()?;
    let sum = sum_in_order(told.sums.as_slice());
    Ok(match reply {
        Reply::Is(last, count) => sum == Some(last) && count as u64 == told.kept,
        _ => false,
    })
}

// The amount of a line that asks for the group.
fn read_amount(line: &str) -> Option<u64> {
    let (word, amount) = line.split_once(' ')?;
    if word != "nine" {
        return None;
    }
    amount.parse::<u64>().ok()
}

// Writes what came of a line that asks for the group.
fn write_sums<R: Print + Wait>(rt: &R, alloc: Global, line: &str, amount: u64) -> io::Result<()> {
    match nine::sums(rt, alloc, amount) {
        Ok((parts, book)) => println!(rt; "{line}: parts {parts}, book {book}"),
        Err(stop) => println!(rt; "{line}: {stop:?}"),
    }
}

// Writes what the callers of a row were told.
fn write_told<R: Print>(rt: &R, line: &str, reply: Reply, told: &mut Told) -> io::Result<()> {
    match is_in_order(reply, told) {
        Ok(true) => println!(rt;
            "{line}: {} added, {} kept, {} wanted memory, in order, {reply:?}",
            told.sums.len(),
            told.kept,
            told.wanting
        ),
        _ => println!(rt; "{line}: not in order"),
    }
}

// Writes what came of a row.
fn write_row<R: Print + Threads + Wait + Sync>(
    rt: &R,
    alloc: Global,
    line: &str,
    row: Row,
) -> io::Result<()> {
    let mut told = Told::new(alloc);
    let done = match counted(rt, alloc, row, &mut told) {
        Ok(reply) => write_told(rt, line, reply, &mut told),
        Err(stop) => println!(rt; "{line}: {stop:?}"),
    };
    drop(told);
    done
}

// Does what a line asks for.
fn step<R: Print + Threads + Wait + Sync>(rt: &R, alloc: Global, line: &str) -> io::Result<()> {
    if let Some(amount) = read_amount(line) {
        return write_sums(rt, alloc, line, amount);
    }
    match read_row(line) {
        Some(row) => write_row(rt, alloc, line, row),
        None => println!(rt; "no row"),
    }
}

fn main(rt: HostRuntime) -> io::Result<()> {
    let alloc = rt.alloc();
    for line in rt.lines(alloc) {
        let line = line?;
        step(&rt, alloc, line.as_str())?;
    }
    Ok(())
}
