// Calls on a part of the cache.
use crate::spelling::{at, letters, number, push_number};
use fed_base::{Alg, Duplicate, Memory, OpensLedgers, Plain, Steps, Text};
use sealed::{Sealed, Tested, test_key};
use slh_dsa::KeyPair;
use statement_shelf::{Proven, ShelfCall, ShelfReply};
use std::alloc::Global;
use turn_log::{Opening, Sequential};

// The 48 seeds from 0 to 47.
const SEEDS: [u8; 48] = [
    0, 1, 2, 3, 4, 5, 6, 7, 8, 9, 10, 11, 12, 13, 14, 15, 16, 17, 18, 19, 20, 21, 22, 23, 24, 25,
    26, 27, 28, 29, 30, 31, 32, 33, 34, 35, 36, 37, 38, 39, 40, 41, 42, 43, 44, 45, 46, 47,
];

/// A text that is signed by the key of these seeds.
pub fn sealed_text(alloc: Global, alg: Alg) -> Result<Text, Memory> {
    let typ = Text::of(alloc, b"entity-statement+jwt")?;
    sealed::seal_payload(alloc, &KeyPair::from_seeds(alg, &SEEDS), &typ, b"{}")
}

// The text with its key, which it is tested under.
fn seal_of<R: OpensLedgers>(rt: &R, alloc: Global, text: &Text) -> Result<Option<Sealed>, Memory> {
    let Ok(compact) = jws_form::split(alloc, text.as_slice()) else {
        return Ok(None);
    };
    let public = KeyPair::from_seeds(compact.alg, &SEEDS).public();
    let mut steps = Steps {
        ledger: Plain::new(rt),
    };
    match test_key(alloc, &compact, &public, &mut steps)? {
        Tested::Yes(seal) => Ok(Some(seal)),
        Tested::No(_) => Ok(None),
    }
}

// The text that a call puts or proves: a sealed one, or the call's own.
fn text_of(alloc: Global, word: &str, sealed: &Text) -> Result<Text, Memory> {
    match word {
        "sealed" => sealed.copy(alloc),
        "fast" => sealed_text(alloc, Alg::Fast),
        _ => Text::of(alloc, word.as_bytes()),
    }
}

// What a call asks.
fn read<R: OpensLedgers>(
    rt: &R,
    alloc: Global,
    call: &str,
    sealed: &Text,
) -> Result<Option<ShelfCall>, Memory> {
    let url = Text::of(alloc, at(call, 1).as_bytes())?;
    Ok(match at(call, 0) {
        "look" => Some(ShelfCall::Look {
            url,
            moment: number(at(call, 2)),
        }),
        "put" => Some(ShelfCall::Put {
            url,
            text: text_of(alloc, at(call, 3), sealed)?,
            until: number(at(call, 2)),
        }),
        "prove" => {
            let text = text_of(alloc, at(call, 2), sealed)?;
            match seal_of(rt, alloc, &text)? {
                Some(seal) => Some(ShelfCall::Prove { url, seal }),
                None => None,
            }
        },
        "purge" => Some(ShelfCall::Purge {
            moment: number(at(call, 1)),
        }),
        _ => None,
    })
}

// Appends what a Hit shows: the text, or its length where it is long, and how many keys.
fn push_hit(alloc: Global, out: &mut Text, proven: &Proven) -> Result<(), Memory> {
    out.append(b"Hit(")?;
    if proven.text.len() < 40 {
        out.append(proven.text.as_slice())?;
    } else {
        push_number(alloc, out, proven.text.len() as u64)?;
        out.append(b" bytes")?;
    }
    out.append(b", ")?;
    push_number(alloc, out, proven.keys.len() as u64)?;
    out.append(b" keys)")
}

/// Appends a reply.
pub fn push_reply(alloc: Global, out: &mut Text, reply: &ShelfReply) -> Result<(), Memory> {
    match reply {
        ShelfReply::Hit(proven) => push_hit(alloc, out, proven),
        ShelfReply::Miss => out.append(b"Miss"),
        ShelfReply::Done => out.append(b"Done"),
        ShelfReply::Gone => out.append(b"Gone"),
        ShelfReply::Dropped(count) => {
            out.append(b"Dropped(")?;
            push_number(alloc, out, *count)?;
            out.append(b")")
        },
        ShelfReply::Memory => out.append(b"Memory"),
    }
}

// Puts texts under `h` repeated once to so many times, and appends how often Done was replied.
fn put_many<P: Sequential<Call = ShelfCall, Reply = ShelfReply>>(
    alloc: Global,
    part: &mut P,
    count: u64,
    until: u64,
    out: &mut Text,
) -> Result<(), Memory> {
    let mut done = 0u64;
    for times in 0..count {
        let url = letters(alloc, times.saturating_add(1))?;
        let text = url.copy(alloc)?;
        if let ShelfReply::Done = part.act(alloc, ShelfCall::Put { url, text, until }) {
            done = done.saturating_add(1);
        }
    }
    push_number(alloc, out, done)?;
    out.append(b" times Done")
}

// Makes a call and appends its reply.
fn make<R: OpensLedgers, P: Sequential<Call = ShelfCall, Reply = ShelfReply>>(
    rt: &R,
    alloc: Global,
    part: &mut P,
    call: &str,
    sealed: &Text,
    out: &mut Text,
) -> Result<(), Memory> {
    if at(call, 0) == "puts" {
        return put_many(alloc, part, number(at(call, 1)), number(at(call, 2)), out);
    }
    match read(rt, alloc, call, sealed)? {
        Some(call) => {
            let added = make_copy(alloc, part, &call, out);
            drop(call);
            added
        },
        None => out.append(b"no call"),
    }
}

// Makes a copy of the call, and appends a copy of its reply.
fn make_copy<P: Sequential<Call = ShelfCall, Reply = ShelfReply>>(
    alloc: Global,
    part: &mut P,
    call: &ShelfCall,
    out: &mut Text,
) -> Result<(), Memory> {
    let reply = part.act(alloc, call.copy(alloc)?);
    let added = push_copy(alloc, out, &reply);
    drop(reply);
    added
}

fn push_copy(alloc: Global, out: &mut Text, reply: &ShelfReply) -> Result<(), Memory> {
    let copy = reply.copy(alloc)?;
    let added = push_reply(alloc, out, &copy);
    drop(copy);
    added
}

/// The replies to these calls, made on an empty part.
pub fn replies<R: OpensLedgers, P: Opening + Sequential<Call = ShelfCall, Reply = ShelfReply>>(
    rt: &R,
    alloc: Global,
    calls: &str,
    sealed: &Text,
) -> Result<Text, Memory> {
    let mut part = P::open(alloc)?;
    let mut out = Text::new(alloc);
    for call in calls.split(' ') {
        if !out.is_empty() {
            out.append(b", ")?;
        }
        make(rt, alloc, &mut part, call, sealed, &mut out)?;
    }
    Ok(out)
}
