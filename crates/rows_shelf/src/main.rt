//! Layer 8, rows: calls on a part of the cache, in both of its forms, and on the book of trust anchors' keys.
//!
//! Each line of the input is a word and calls with a space between two. `part` makes calls on an empty part of the cache, in its form on
//! `lru` and in its form as a plain list; the replies of both must be the same. `book` makes calls on a book of two anchors. `passes` and
//! a word makes calls on the cache and the book that threads share, by passes that are split and joined. `same` and a number makes so
//! many calls on both forms of a part, by a row of numbers.
#![tactic(auto)]

mod book;
mod numbers;
mod part;
mod passes;
mod spelling;

use fed_base::{Alg, Memory, OpensLedgers, Text};
use statement_shelf::ShelfPart;
use statement_shelf::laws::PlainPart;
use std::alloc::Global;
use std::io;
use std::sync::Wait;

// The replies of both forms of a part.
fn parts<R: OpensLedgers>(
    rt: &R,
    alloc: Global,
    calls: &str,
    sealed: &Text,
) -> Result<Text, Memory> {
    let mut replies = part::replies::<_, ShelfPart>(rt, alloc, calls, sealed)?;
    let plain = part::replies::<_, PlainPart>(rt, alloc, calls, sealed)?;
    if plain.as_slice() != replies.as_slice() {
        replies.append(b" but as a plain list: ")?;
        replies.append(plain.as_slice())?;
    }
    Ok(replies)
}

fn answer<R: Wait + OpensLedgers>(
    rt: &R,
    alloc: Global,
    line: &str,
    sealed: &Text,
) -> Result<Text, Memory> {
    let (word, calls) = line.split_once(' ').unwrap_or((line, ""));
    match word {
        "part" => parts(rt, alloc, calls, sealed),
        "book" => book::replies(alloc, calls),
        "passes" => passes::replies(rt, alloc, calls),
        "same" => numbers::compared(alloc, spelling::number(calls)),
        _ => Text::of(alloc, b"no row"),
    }
}

fn main(rt: HostRuntime) -> io::Result<()> {
    let alloc = rt.alloc();
    let sealed = part::sealed_text(alloc, Alg::Small).unwrap_or(Text::new(alloc));
    for line in rt.lines(alloc) {
        let line = line?;
        match answer(&rt, alloc, line.as_str(), &sealed) {
            Ok(told) => println!(rt; "{}", spelling::shown(&told))?,
            Err(Memory) => println!(rt; "out of memory")?,
        }
    }
    Ok(())
}
