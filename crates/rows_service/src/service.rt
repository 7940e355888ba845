// A service, over files and a clock in memory.

use crate::federation::MOMENT;
use crate::words::show;
use fed_base::{Memory, OpensLedgers, Seq, Text};
use fed_ports::{MemoryClock, MemoryStore, NamedFile, Network};
use node_service::{ServiceEnd, serve_authority};
use plain_notes::Notes;
use resolver_service::{ResolverEnd, serve_resolver};
use std::alloc::Global;
use std::sync::Wait;
use std::thread::Threads;

// How many bytes are kept at most, and how many calls the store answers.
const ROOM: usize = 1000;

const CALLS: u64 = 100;

// The port that is listened on.
const PORT: u16 = 443;

/// The bytes of a node's files `node` and `ring`.
#[derive(Clone, Copy, Drop)]
pub(crate) struct Files {
    pub(crate) node: &'static [u8],
    pub(crate) ring: &'static [u8],
}

fn add_file(
    alloc: Global,
    name: &[u8],
    bytes: &[u8],
    files: &mut Seq<NamedFile>,
) -> Result<(), Memory> {
    let name = Text::of(alloc, name)?;
    let bytes = Text::of(alloc, bytes)?;
    files.push(NamedFile { name, bytes })
}

fn store(alloc: Global, files: Files) -> Result<MemoryStore, Memory> {
    let mut named = Seq::new(alloc);
    add_file(alloc, b"node", files.node, &mut named)?;
    add_file(alloc, b"ring", files.ring, &mut named)?;
    MemoryStore::new(alloc, named, ROOM, false, &[], CALLS)
}

/// What an authority is to serve: of which files, how many connections, and whether each is kept.
#[derive(Clone, Copy, Drop)]
pub(crate) struct Served {
    pub(crate) files: Files,
    pub(crate) connections: u64,
    pub(crate) stream: bool,
}

/// Serves as the authority of the files, and tells how that ended.
pub(crate) fn authority_served<R: Wait + Threads + OpensLedgers + Sync, N: Network + Drop>(
    rt: &R,
    alloc: Global,
    asked: Served,
    net: &mut N,
) -> Result<Text, Memory> {
    let config = Text::of(alloc, b"node")?;
    let mut clock = MemoryClock::new(alloc, &[MOMENT])?;
    let mut store = store(alloc, asked.files)?;
    let mut notes = Notes::new(alloc, None);
    let end = serve_authority(
        rt,
        alloc,
        &config,
        PORT,
        asked.connections,
        asked.stream,
        &mut store,
        net,
        &mut clock,
        &mut notes,
    );
    drop(config);
    drop(clock);
    drop(store);
    drop(notes);
    Text::of(alloc, authority_end(end))
}

fn authority_end(end: ServiceEnd) -> &'static [u8] {
    match end {
        ServiceEnd::Served => b"served",
        ServiceEnd::Input => b"no such node",
        ServiceEnd::StoreFailed => b"the store failed",
        ServiceEnd::NetworkFailed => b"the network failed",
        ServiceEnd::Memory => b"out of memory",
    }
}

/// Serves so many connections as the resolver of the files, and tells how that ended.
pub(crate) fn resolver_served<R: Threads + Wait + OpensLedgers + Sync, N: Network + Drop>(
    rt: &R,
    alloc: Global,
    files: Files,
    connections: u64,
    net: &mut N,
) -> Result<Text, Memory>
where
    N::Peer: Drop,
{
    let config = Text::of(alloc, b"node")?;
    let mut clock = MemoryClock::new(alloc, &[MOMENT])?;
    let mut store = store(alloc, files)?;
    let mut notes = Notes::new(alloc, None);
    let end = serve_resolver(
        rt,
        alloc,
        &config,
        PORT,
        connections,
        &mut store,
        net,
        &mut clock,
        &mut notes,
    );
    drop(config);
    drop(clock);
    drop(store);
    drop(notes);
    Text::of(alloc, resolver_end(&end))
}

fn resolver_end(end: &ResolverEnd) -> &'static [u8] {
    match end {
        ResolverEnd::Served(_) => b"served",
        ResolverEnd::Input => b"no such node",
        ResolverEnd::StoreFailed => b"the store failed",
        ResolverEnd::NetworkFailed => b"the network failed",
        ResolverEnd::Unsettled => b"not all were settled",
        ResolverEnd::Memory => b"out of memory",
        ResolverEnd::Worn(_) => b"worn",
    }
}

/// Adds what a caller holds.
pub(crate) fn add_held(told: &mut Text, held: &[u8]) -> Result<(), Memory> {
    told.append(b"; ")?;
    show(told, held)
}
