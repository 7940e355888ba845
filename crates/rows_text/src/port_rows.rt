// Lists, sources, sinks and clocks.

use crate::spelling::{bytes_of, cut, number, numbers, told};
use fed_base::{Duplicate, Memory, Seq, Text};
use fed_ports::{Clock, MemoryClock, MemorySink, MemorySource, RealSink, RealSource, Sink, Source};
use std::alloc::Global;

/// Three pieces, appended by one call each, then twice in a list that is copied, and 32 bytes in another.
pub fn lists(alloc: Global, given: &str) -> Result<Text, Memory> {
    let mut list = Seq::new(alloc);
    list.push(pieces(alloc, given)?)?;
    list.push(Text::of(alloc, &[7u8; 32])?)?;
    let joined = copied(alloc, &list);
    drop(list);
    joined
}

fn pieces(alloc: Global, given: &str) -> Result<Text, Memory> {
    let (first, given) = cut(given);
    let (second, third) = cut(given);
    let mut text = bytes_of(alloc, first)?;
    text.append(second.as_bytes())?;
    for &byte in third.as_bytes() {
        text.push(byte)?;
    }
    Ok(text)
}

fn copied(alloc: Global, list: &Seq<Text>) -> Result<Text, Memory> {
    let copied = list.copy(alloc)?;
    joined(alloc, copied.as_slice(), b" ")
}

/// The texts, with a text between them.
pub fn joined(alloc: Global, texts: &[Text], between: &[u8]) -> Result<Text, Memory> {
    let mut all = Text::new(alloc);
    for (i, text) in texts.iter().enumerate() {
        if i > 0 {
            all.append(between)?;
        }
        all.append(text.as_slice())?;
    }
    Ok(all)
}

/// What three calls with a buffer of two bytes take from a source of the first part's bytes, and `F` for a failure.
pub fn source(alloc: Global, given: &str) -> Result<Text, Memory> {
    let (bytes, given) = cut(given);
    let (failing, calls) = cut(given);
    let failing = numbers(alloc, failing)?;
    let mut source = MemorySource::new(alloc, bytes.as_bytes(), failing.as_slice(), number(calls))?;
    let mut seen = Text::new(alloc);
    takes(&mut source, &mut seen)?;
    Ok(seen)
}

fn takes(source: &mut MemorySource, seen: &mut Text) -> Result<(), Memory> {
    let mut buffer = [0u8; 2];
    for _ in 0..3 {
        match source.take(&mut buffer) {
            Ok(n) => seen.append(&buffer[..n])?,
            Err(_) => seen.push(b'F')?,
        }
    }
    Ok(())
}

/// What a sink with that room holds once it was given `ab` three times.
pub fn sink(alloc: Global, given: &str) -> Result<Text, Memory> {
    let (room, given) = cut(given);
    let (failing, calls) = cut(given);
    let failing = numbers(alloc, failing)?;
    let room = number(room) as usize;
    let mut sink = MemorySink::new(alloc, room, failing.as_slice(), number(calls))?;
    for _ in 0..3 {
        let _ = sink.give(b"ab");
    }
    Text::of(alloc, sink.as_slice())
}

/// How many bytes a reader of them gives in three calls, and how many a writer takes in one.
pub fn adapters(alloc: Global, given: &str) -> Result<Text, Memory> {
    let mut counts = Text::new(alloc);
    add_taken(alloc, given, &mut counts)?;
    add_given(alloc, &mut counts)?;
    Ok(counts)
}

fn add_count(alloc: Global, count: usize, counts: &mut Text) -> Result<(), Memory> {
    counts.append(told(alloc, &count)?.as_slice())
}

fn add_taken(alloc: Global, given: &str, counts: &mut Text) -> Result<(), Memory> {
    let mut source = RealSource::new(given.as_bytes());
    let mut buffer = [0u8; 4];
    for _ in 0..3 {
        let n = source.take(&mut buffer).unwrap_or(9);
        add_count(alloc, n, counts)?;
    }
    Ok(())
}

fn add_given(alloc: Global, counts: &mut Text) -> Result<(), Memory> {
    let mut sink = RealSink::new(Vec::<u8>::new(alloc));
    let n = match sink.give(b"ab") {
        Ok(n) => n,
        Err(_) => 0,
    };
    drop(sink);
    add_count(alloc, n, counts)
}

fn add_reading(alloc: Global, clock: &mut MemoryClock, readings: &mut Text) -> Result<(), Memory> {
    readings.append(told(alloc, &clock.now())?.as_slice())
}

fn add_readings(alloc: Global, clock: &mut MemoryClock, readings: &mut Text) -> Result<(), Memory> {
    for _ in 0..4 {
        add_reading(alloc, clock, readings)?;
        readings.push(b' ')?;
    }
    let mut another = clock.another(alloc)?;
    let added = add_reading(alloc, &mut another, readings);
    drop(another);
    added
}

/// Four readings of a clock of these moments, and the first of another.
pub fn clock(alloc: Global, given: &str) -> Result<Text, Memory> {
    let moments = numbers(alloc, given)?;
    let mut clock = MemoryClock::new(alloc, moments.as_slice())?;
    let mut readings = Text::new(alloc);
    let added = add_readings(alloc, &mut clock, &mut readings);
    drop(clock);
    added?;
    Ok(readings)
}
