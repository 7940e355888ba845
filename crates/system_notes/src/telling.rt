// What is said to a person beside the notes of a call: what starts, what is waited for, and what the system tells of files and the network.

use crate::build::{is_version, tell_of_build};
use crate::ending::{Started, explain_end};
use crate::named_file::{explain_fault, is_open_file, value_of, warn_of_open, warn_of_open_file};
use crate::reasons::{explain_fetch_time, explain_listen, explain_unkept, explain_untold};
use cli_notes::{explain_waiting, page_meant};
use cli_words::{Call, Inspection, Service, read_call};
use fed_ports::{Address, Clock, RealClock, Sink, Text};
use fed_store::RealStore;
use network_notes::{Failures, explain_failures};
use node_start::{Start, ring_name, tell_of_start};
use plain_notes::{Notes, explain_sink};
use std::alloc::Global;
use std::env::Env;
use std::fs::File;
use std::io::Eprint;
use std::rt::Files;
use std::str;
use std::time::Clock as SystemClock;

// The status of what is refused.
const REFUSED: u8 = 1;

/// The status of arguments, or of a file, that are malformed.
pub const FAULTY: u8 = 2;

// The status of output that can't be written.
const SINK_FAULT: u8 = 4;

// The status of a file that can't be read or kept.
const STORE_FAULT: u8 = 6;

// Writes the notes to standard error. Where that fails they are left out.
fn tell<R: Eprint>(rt: &R, notes: &Notes) {
    if let Ok(text) = str::from_utf8(notes.text()) {
        let _ = eprint!(rt; "{text}");
    }
}

/// Says what the command waits for.
pub fn tell_of_waiting<R: Eprint>(rt: &R, alloc: Global, words: &[Text]) {
    let mut notes = Notes::new(alloc, None);
    explain_waiting(alloc, words, &mut notes);
    tell(rt, &notes);
}

/// Says that there is no address to listen on.
pub fn tell_of_address<R: Env + AllocGlobal + Eprint>(rt: &R, alloc: Global) {
    let mut notes = Notes::new(alloc, None);
    explain_listen(rt, alloc, &mut notes);
    tell(rt, &notes);
}

/// Says that there is no such time for fetching.
pub fn tell_of_fetch_time<R: Env + AllocGlobal + Eprint>(rt: &R, alloc: Global) {
    let mut notes = Notes::new(alloc, None);
    explain_fetch_time(rt, alloc, &mut notes);
    tell(rt, &notes);
}

// What the words ask for, where that is a service that listens.
#[derive(Drop)]
struct Asked {
    // The file of the node's configuration.
    config: Text,
    port: u16,
    connections: u64,
}

fn listening(alloc: Global, words: &[Text]) -> Option<Asked> {
    match read_call(alloc, words) {
        Ok(
            Call::Service(
                Service::Authority {
                    config_file,
                    port,
                    connections,
                    ..
                }
                | Service::Resolver {
                    config_file,
                    port,
                    connections,
                    ..
                },
            ),
        ) => Some(Asked {
            config: config_file,
            port,
            connections,
        }),
        _ => None,
    }
}

/// Says what a node that starts is, and what looks wrong in its configuration, and gives the node that starts.
pub fn tell_of_node<R: Files<File = File> + Eprint + SystemClock + AllocGlobal + Sync>(
    rt: &R,
    alloc: Global,
    words: &[Text],
    ip: [u8; 4],
) -> Option<Started> {
    let asked = listening(alloc, words)?;
    let mut notes = Notes::new(alloc, None);
    let mut store = RealStore::new(rt);
    let mut clock = RealClock::new(rt);
    let address = Address {
        ip,
        port: asked.port,
    };
    let start = Start {
        config: &asked.config,
        address,
        moment: clock.now(),
    };
    let node = tell_of_start(alloc, &start, &mut store, &mut notes);
    if let Some(ring) = ring_name(alloc, &asked.config, &mut store) {
        warn_of_open(rt, alloc, &ring, &mut notes);
        drop(ring);
    }
    tell(rt, &notes);
    started(node, address, asked.connections)
}

fn started(node: Option<Text>, address: Address, connections: u64) -> Option<Started> {
    match node {
        Some(id) => Some(Started {
            id,
            address,
            connections,
        }),
        None => None,
    }
}

// Says why a node that started ends.
fn tell_of_end<R: Eprint>(
    rt: &R,
    alloc: Global,
    node: &Option<Started>,
    failures: &Failures,
    status: u8,
) {
    if let Some(node) = node {
        let mut notes = Notes::new(alloc, None);
        explain_end(alloc, node, failures, status, &mut notes);
        tell(rt, &notes);
    }
}

// Writes the page for which words that give no command ask all the same.
fn tell_of_page<R: Eprint>(rt: &R, alloc: Global, words: &[Text]) {
    if let Some(page) = page_meant(alloc, words) {
        if let Ok(text) = str::from_utf8(page) {
            let _ = eprint!(rt; "{text}");
        }
    }
}

// Says which calls of the network failed, and why.
fn tell_of_network<R: Eprint>(rt: &R, alloc: Global, failures: &Failures) {
    let mut notes = Notes::new(alloc, None);
    explain_failures(alloc, failures, &mut notes);
    tell(rt, &notes);
}

// Says why the file that the words name can't be read or kept.
fn explain_store<R: Files + AllocGlobal>(rt: &R, alloc: Global, words: &[Text], notes: &mut Notes) {
    let ring = value_of(words, b"--ring");
    let named = ring.or(value_of(words, b"--keys"));
    let is_seen = match named.or(value_of(words, b"--config")) {
        Some(path) => explain_fault(rt, alloc, path, notes),
        None => true,
    };
    match ring {
        Some(path) if !is_seen && keeps(words) => explain_unkept(rt, alloc, path, notes),
        _ => {}
    }
}

// Whether the words are those of a command that keeps a ring's file.
fn keeps(words: &[Text]) -> bool {
    match words {
        [verb, ..] => verb.as_slice() == b"keygen".as_slice()
            || verb.as_slice() == b"rotate".as_slice(),
        [] => false,
    }
}

// The name of the ring of the configuration that the words check, and whether what is warned of is refused.
fn checked_ring<R: Files<File = File> + Eprint + AllocGlobal>(
    rt: &R,
    alloc: Global,
    words: &[Text],
) -> Option<(Text, bool)> {
    match read_call(alloc, words) {
        Ok(
            Call::Inspection(
                Inspection::Config {
                    config_file,
                    at: _,
                    strict,
                },
            ),
        ) => {
            let mut store = RealStore::new(rt);
            let ring = ring_name(alloc, &config_file, &mut store)?;
            drop(config_file);
            Some((ring, strict))
        }
        _ => None,
    }
}

/// The status of a check that was passed: 1 where it is strict, and others than its owner can read the ring.
pub fn with_ring<R: Files<File = File> + Eprint + AllocGlobal>(
    rt: &R,
    alloc: Global,
    words: &[Text],
    status: u8,
) -> u8 {
    match checked_ring(rt, alloc, words) {
        Some((ring, strict)) => {
            let is_refused = strict && status == 0 && is_open_file(rt, &ring);
            drop(ring);
            if is_refused { REFUSED } else { status }
        }
        None => status,
    }
}

// Warns of the ring of the configuration that the words check, where others than its owner can read it.
fn warn_of_checked_ring<R: Files<File = File> + Eprint + AllocGlobal>(
    rt: &R,
    alloc: Global,
    words: &[Text],
    notes: &mut Notes,
) {
    if let Some((ring, _)) = checked_ring(rt, alloc, words) {
        warn_of_open(rt, alloc, &ring, notes);
        drop(ring);
    }
}

// Says what the system tells of the file that the words name.
fn tell_of_file<R: Files<File = File> + AllocGlobal + Eprint>(
    rt: &R,
    alloc: Global,
    words: &[Text],
    status: u8,
) {
    let mut notes = Notes::new(alloc, None);
    if status == STORE_FAULT {
        explain_store(rt, alloc, words, &mut notes);
    }
    match value_of(words, b"--ring") {
        Some(path) if status == 0 => warn_of_open_file(rt, alloc, path, &mut notes),
        Some(path) if status == SINK_FAULT && keeps(words) => {
            explain_untold(rt, alloc, path, &mut notes);
        }
        _ => {}
    }
    if status <= REFUSED {
        warn_of_checked_ring(rt, alloc, words, &mut notes);
    }
    tell(rt, &notes);
}

/// Writes behind the version what the program was built from, and gives the status.
pub fn with_build<R: Files, K: Sink>(rt: &R, words: &[Text], out: &mut K, status: u8) -> u8 {
    if status == 0 && is_version(words) && tell_of_build(rt, out).is_err() {
        SINK_FAULT
    } else {
        status
    }
}

/// Says what the system tells of files and of the network, and why the node that started ends, where one did; writes what was asked for
/// otherwise than by a command and what the program was built from, and gives the status.
pub fn ended<R: Files<File = File> + AllocGlobal + Eprint, K: Sink>(
    rt: &R,
    alloc: Global,
    words: &[Text],
    node: &Option<Started>,
    failures: &Failures,
    out: &mut K,
    status: u8,
) -> u8 {
    tell_of_file(rt, alloc, words, status);
    tell_of_network(rt, alloc, failures);
    tell_of_end(rt, alloc, node, failures, status);
    if status == FAULTY {
        tell_of_page(rt, alloc, words);
    }
    let checked = with_ring(rt, alloc, words, status);
    let shown = with_build(rt, words, out, checked);
    if shown != checked {
        let mut notes = Notes::new(alloc, None);
        explain_sink(alloc, &mut notes);
        tell(rt, &notes);
    }
    shown
}
