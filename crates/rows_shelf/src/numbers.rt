// Many calls on both forms of a part, whose replies are compared.
use crate::part::push_reply;
use crate::spelling::push_number;
use fed_base::{Duplicate, Memory, Text};
use statement_shelf::laws::PlainPart;
use statement_shelf::{ShelfCall, ShelfPart, ShelfReply};
use std::alloc::Global;
use turn_log::{Opening, Sequential};

// How often each reply came.
#[derive(Drop)]
struct Counts {
    same: u64,
    hits: u64,
    misses: u64,
    dropped: u64,
}

// The number after a number: 1,103,515,245 times it, and 12,345, modulo 2^31.
fn next(number: u64) -> u64 {
    number.wrapping_mul(1_103_515_245).wrapping_add(12_345) % 2_147_483_648
}

// The call of a number, which is the n-th.
fn call_of(alloc: Global, number: u64, n: u64) -> Result<ShelfCall, Memory> {
    let mut url = Text::of(alloc, b"u")?;
    push_number(alloc, &mut url, number / 8 % 64)?;
    Ok(match number % 8 {
        0..=2 => ShelfCall::Look { url, moment: n },
        3..=6 => {
            let mut text = Text::of(alloc, b"text ")?;
            push_number(alloc, &mut text, n)?;
            ShelfCall::Put {
                url,
                text,
                until: n.saturating_add(40),
            }
        },
        _ => ShelfCall::Purge { moment: n },
    })
}

// Counts a reply.
fn count(counts: &mut Counts, reply: &ShelfReply) {
    match reply {
        ShelfReply::Hit(_) => counts.hits = counts.hits.saturating_add(1),
        ShelfReply::Miss => counts.misses = counts.misses.saturating_add(1),
        ShelfReply::Dropped(dropped) => counts.dropped = counts.dropped.saturating_add(*dropped),
        _ => {},
    }
}

// A reply as a text.
fn told(alloc: Global, reply: &ShelfReply) -> Result<Text, Memory> {
    let mut text = Text::new(alloc);
    push_reply(alloc, &mut text, reply)?;
    Ok(text)
}

// Makes the n-th call on both forms, and counts where they reply the same.
fn make(
    alloc: Global,
    part: &mut ShelfPart,
    plain: &mut PlainPart,
    number: u64,
    n: u64,
    counts: &mut Counts,
) -> Result<(), Memory> {
    let reply = part.act(alloc, call_of(alloc, number, n)?);
    let made = compare(alloc, plain, number, n, &reply, counts);
    drop(reply);
    made
}

// Makes the n-th call on the plain form, and counts whether it replies what the other did.
fn compare(
    alloc: Global,
    plain: &mut PlainPart,
    number: u64,
    n: u64,
    reply: &ShelfReply,
    counts: &mut Counts,
) -> Result<(), Memory> {
    let other = plain.act(alloc, call_of(alloc, number, n)?);
    let same = are_same(alloc, reply, &other);
    drop(other);
    if same? {
        counts.same = counts.same.saturating_add(1);
    }
    count(counts, reply);
    Ok(())
}

fn are_same(alloc: Global, reply: &ShelfReply, other: &ShelfReply) -> Result<bool, Memory> {
    let reply = told(alloc, reply)?;
    let other = told(alloc, other)?;
    Ok(reply.as_slice() == other.as_slice())
}

// Appends a count and its word.
fn push_count(alloc: Global, out: &mut Text, count: u64, word: &[u8]) -> Result<(), Memory> {
    push_number(alloc, out, count)?;
    out.append(word)
}

// Makes so many calls on both forms.
fn make_all(
    alloc: Global,
    part: &mut ShelfPart,
    plain: &mut PlainPart,
    calls: u64,
    counts: &mut Counts,
) -> Result<(), Memory> {
    let mut number = 1;
    for n in 0..calls {
        make(alloc, part, plain, number, n, counts)?;
        number = next(number);
    }
    Ok(())
}

fn counted(alloc: Global, calls: u64, counts: &mut Counts) -> Result<(), Memory> {
    let mut part = ShelfPart::open(alloc)?;
    match PlainPart::open(alloc) {
        Ok(mut plain) => {
            let made = make_all(alloc, &mut part, &mut plain, calls, counts);
            drop(part);
            drop(plain);
            made
        },
        Err(_) => Err(Memory),
    }
}

/// Makes so many calls on both forms, and tells how many replies were the same, and of which kind they were.
pub fn compared(alloc: Global, calls: u64) -> Result<Text, Memory> {
    let mut counts = Counts {
        same: 0,
        hits: 0,
        misses: 0,
        dropped: 0,
    };
    counted(alloc, calls, &mut counts)?;
    let mut out = Text::new(alloc);
    push_count(alloc, &mut out, counts.same, b" the same, ")?;
    push_count(alloc, &mut out, counts.hits, b" hits, ")?;
    push_count(alloc, &mut out, counts.misses, b" misses, ")?;
    push_count(alloc, &mut out, counts.dropped, b" dropped")?;
    Ok(out)
}
