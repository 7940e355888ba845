// Stores, and what asks the system.

use crate::spelling::{cut, number, numbers, word};
use fed_base::{Memory, Seq, Text};
use fed_ports::{Clock, MemoryStore, NamedFile, RealClock, Store, StoreFault};
use fed_store::RealStore;
use std::alloc::Global;
use std::fs::File;
use std::io::Eprint;
use std::rt::Files;
use std::time::Clock as SystemClock;

fn letter(loaded: Result<Option<Text>, StoreFault>) -> u8 {
    match loaded {
        Ok(Some(text)) => text.as_slice().first().copied().unwrap_or(b'e'),
        Ok(None) => b'-',
        Err(StoreFault::Failed) => b'F',
        Err(StoreFault::TooLong) => b'L',
        Err(StoreFault::Memory) => b'M',
    }
}

// A store whose file `ring` has the bytes `old`: the calls that fail, the room, and whether a failing call leaves the new file.
fn store(alloc: Global, given: &str) -> Result<MemoryStore, Memory> {
    let (failing, given) = cut(given);
    let (room, leaves) = cut(given);
    let failing = numbers(alloc, failing)?;
    let mut files = Seq::new(alloc);
    files.push(NamedFile {
        name: Text::of(alloc, b"ring")?,
        bytes: Text::of(alloc, b"old")?,
    })?;
    let room = number(room) as usize;
    MemoryStore::new(alloc, files, room, leaves == "new", failing.as_slice(), 9)
}

// The first letter of what is found, and how the keeping of `new` ends.
fn load_and_keep<D: Store>(alloc: Global, store: &mut D, name: &Text) -> (u8, u8) {
    let before = letter(store.load(alloc, name));
    let kept = if store.keep(name, b"new").is_ok() {
        b'+'
    } else {
        b'F'
    };
    (before, kept)
}

/// The first letter of what is found before `new` is kept under that name, how the keeping ends, and the letter of what is found then.
pub fn memory(alloc: Global, given: &str) -> Result<Text, Memory> {
    let name = Text::of(alloc, b"ring")?;
    let mut store = store(alloc, given)?;
    let (before, kept) = load_and_keep(alloc, &mut store, &name);
    let after = letter(store.load(alloc, &name));
    let other = if store.file(b"rin").is_none() {
        b'-'
    } else {
        b'+'
    };
    drop(store);
    Text::of(alloc, &[before, kept, after, other])
}

/// The same of a file of that name in the folder where the program runs.
pub fn real<R: Files<File = File> + AllocGlobal + Eprint>(
    rt: &R,
    alloc: Global,
    given: &str,
) -> Result<Text, Memory> {
    let name = Text::of(alloc, given.as_bytes())?;
    let mut store = RealStore::new(rt);
    let (before, kept) = load_and_keep(alloc, &mut store, &name);
    drop(store);
    Text::of(alloc, &[before, kept])
}

/// Whether the system's clock is past 2023.
pub fn clock<R: SystemClock + Sync>(rt: &R, alloc: Global) -> Result<Text, Memory> {
    let mut clock = RealClock::new(rt);
    word(
        alloc,
        if clock.now() > 1_700_000_000 {
            "past 2023"
        } else {
            "before"
        },
    )
}
