// Rows of a ring and the steps that are taken with it.

ghost use Rattle.fed_json.specs.Forms.{IsWhole};

use crate::terms::add_terms;
use crate::words::{add, add_fault, algorithm, cut, cut_word, moment, reason, seeds};
use base64url::encode_32;
use fed_base::{Memory, Seq, Text};
use fed_json::{Json, write_tree};
use fed_ports::{MemoryStore, NamedFile};
use jwk_set::JwkSet;
use key_ring::{KeyRing, RingFault, first_file};
use std::alloc::Global;

// The room of a store, in bytes.
const ROOM: usize = 40_000;

/// The file of a new ring: the algorithm and the seeds of its key, and the moments that it is for.
pub fn first(alloc: Global, given: &str) -> Result<Text, Memory> {
    let (alg, given) = cut(given);
    let (digits, given) = cut(given);
    let (at, exp) = cut(given);
    let mut out = Text::new(alloc);
    match first_file(
        alloc,
        algorithm(alg),
        &seeds(digits),
        moment(at),
        moment(exp),
    ) {
        Ok(file) => add(&mut out, file.as_slice())?,
        Err(fault) => add_fault(alloc, &mut out, &fault)?,
    }
    Ok(out)
}

// A store with this file under the name `r`. Where it fails it does so at the first keeping, and leaves the old or the new file.
fn store_of(alloc: Global, plan: &str, file: &str) -> Result<MemoryStore, Memory> {
    let mut files = Seq::new(alloc);
    files.push(NamedFile {
        name: Text::of(alloc, b"r")?,
        bytes: Text::of(alloc, file.as_bytes())?,
    })?;
    let failing = if plan == "keeps" { 99 } else { 0 };
    MemoryStore::new(alloc, files, ROOM, plan == "new", &[failing], 32)
}

/// The answers of the steps that are taken with a ring: how the store fails, the ring's file, and then each step.
pub fn ring(alloc: Global, given: &str) -> Result<Text, Memory> {
    let (plan, given) = cut(given);
    let (file, steps) = cut(given);
    let mut out = Text::new(alloc);
    let mut store = store_of(alloc, plan, file)?;
    let taken = open_and_take(alloc, &mut store, file, steps, &mut out);
    drop(store);
    taken?;
    Ok(out)
}

fn open_and_take(
    alloc: Global,
    store: &mut MemoryStore,
    file: &str,
    steps: &str,
    out: &mut Text,
) -> Result<(), Memory> {
    match KeyRing::open(alloc, file.as_bytes()) {
        Ok(mut ring) => {
            let taken = take_steps(alloc, &mut ring, store, steps, out);
            drop(ring);
            taken
        },
        Err(fault) => add_fault(alloc, out, &fault),
    }
}

fn take_steps(
    alloc: Global,
    ring: &mut KeyRing,
    store: &mut MemoryStore,
    steps: &str,
    out: &mut Text,
) -> Result<(), Memory> {
    for step in steps.split('\t') {
        take_step(alloc, ring, store, step, out)?;
    }
    Ok(())
}

fn take_step(
    alloc: Global,
    ring: &mut KeyRing,
    store: &mut MemoryStore,
    step: &str,
    out: &mut Text,
) -> Result<(), Memory> {
    let (kind, given) = cut_word(step);
    match kind {
        "add" => add_key(alloc, ring, store, given, out),
        "retire" => retire(alloc, ring, store, given, out),
        "revoke" => revoke(alloc, ring, store, given, out),
        "signer" => add(out, &encode_32(&ring.signer().public())),
        "live" => add_set(alloc, ring.live_set(alloc)?, out),
        "kept" => add_set(alloc, ring.kept_set(alloc)?, out),
        "historical" => add_tree(alloc, ring.historical(alloc)?, out),
        "terms" => add_terms(alloc, ring, out),
        "file" => add(out, store.file(b"r").unwrap_or(b"none")),
        "open" => reopen(alloc, store, out),
        _ => add(out, b"no such step"),
    }
}

fn add_key(
    alloc: Global,
    ring: &mut KeyRing,
    store: &mut MemoryStore,
    given: &str,
    out: &mut Text,
) -> Result<(), Memory> {
    let (alg, given) = cut_word(given);
    let (digits, given) = cut_word(given);
    let (at, exp) = cut_word(given);
    let name = Text::of(alloc, b"r")?;
    match ring.rotate(
        alloc,
        store,
        &name,
        algorithm(alg),
        &seeds(digits),
        moment(at),
        moment(exp),
    ) {
        Ok(kid) => add(out, kid.as_slice()),
        Err(fault) => add_fault(alloc, out, &fault),
    }
}

fn retire(
    alloc: Global,
    ring: &mut KeyRing,
    store: &mut MemoryStore,
    kid: &str,
    out: &mut Text,
) -> Result<(), Memory> {
    let name = Text::of(alloc, b"r")?;
    let kid = Text::of(alloc, kid.as_bytes())?;
    add_done(alloc, ring.retire(alloc, store, &name, &kid), out)
}

fn revoke(
    alloc: Global,
    ring: &mut KeyRing,
    store: &mut MemoryStore,
    given: &str,
    out: &mut Text,
) -> Result<(), Memory> {
    let (kid, given) = cut_word(given);
    let (at, why) = cut_word(given);
    let name = Text::of(alloc, b"r")?;
    let kid = Text::of(alloc, kid.as_bytes())?;
    let done = ring.revoke(alloc, store, &name, &kid, moment(at), reason(why));
    add_done(alloc, done, out)
}

fn add_done(alloc: Global, done: Result<(), RingFault>, out: &mut Text) -> Result<(), Memory> {
    match done {
        Ok(()) => add(out, b"done"),
        Err(fault) => add_fault(alloc, out, &fault),
    }
}

// Whether the ring opens again from the store, and its file there.
fn reopen(alloc: Global, store: &MemoryStore, out: &mut Text) -> Result<(), Memory> {
    match KeyRing::open(alloc, store.file(b"r").unwrap_or(b"")) {
        Ok(ring) => {
            drop(ring);
            add(out, b"opens")
        },
        Err(fault) => add_fault(alloc, out, &fault),
    }
}

fn add_set(alloc: Global, set: JwkSet, out: &mut Text) -> Result<(), Memory> {
    let tree = set.write(alloc);
    drop(set);
    add_tree(alloc, tree?, out)
}

fn add_tree(alloc: Global, tree: Json, out: &mut Text) -> Result<(), Memory>
    requires { IsWhole tree }
{
    let text = write_tree(alloc, &tree);
    drop(tree);
    add(out, text?.as_slice())
}
