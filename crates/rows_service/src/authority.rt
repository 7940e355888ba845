// The service of an authority over a network in memory.

use crate::service::{Files, Served, add_held, authority_served};
use fed_base::{Memory, OpensLedgers, Seq, Text};
use fed_net::{MemoryNetwork, MemoryPeer};
use std::alloc::Global;
use std::sync::Wait;
use std::thread::Threads;

// The files of the node. The seeds of its ring are the bytes 48 to 95, those of its subordinate's key 96 to 143.
const FILES: Files = Files {
    node: b"{\"entity_id\":\"https://im.example/fed\",\"ring\":\"ring\",\"lifetime\":86400,\"subordinates\":[{\"entity_id\":\"https://rp.example\",\"jwks\":{\"keys\":[{\"alg\":\"SLH-DSA-SHA2-128s\",\"kid\":\"iif1sWF2bp-0ANJO3YzpiDHWLvDf9tqJJ_bu1trBODg\",\"kty\":\"AKP\",\"pub\":\"gIGCg4SFhoeIiYqLjI2Oj9jBECynG2yIJA4SuuZ7Glc\"}]}}]}",
    ring: b"{\"keys\":[{\"exp\":1900000000,\"iat\":1800000000,\"seeds\":\"303132333435363738393a3b3c3d3e3f404142434445464748494a4b4c4d4e4f505152535455565758595a5b5c5d5e5f\",\"state\":\"live\"}],\"version\":1}",
};

// A statement about nobody whom the node knows is asked for.
const FETCH: &[u8] =
    b"GET /fed/fetch?sub=https%3A%2F%2Fno.example HTTP/1.1\r\nHost: im.example\r\n\r\n";

// The list of its subordinates is asked for, twice.
const TWICE: &[u8] = b"GET /fed/list HTTP/1.1\r\nHost: im.example\r\n\r\n\
    GET /fed/list HTTP/1.1\r\nHost: im.example\r\n\r\n";

// It is asked for by one who closes behind it, but goes on.
const CLOSE: &[u8] = b"GET /fed/list HTTP/1.1\r\nHost: im.example\r\nConnection: close\r\n\r\n\
    GET /fed/list HTTP/1.1\r\nHost: im.example\r\n\r\n";

// The second request is cut off.
const CUT: &[u8] = b"GET /fed/list HTTP/1.1\r\nHost: im.example\r\n\r\nGET /fed/li";

// A GET has a body.
const BODY: &[u8] = b"GET /fed/list HTTP/1.1\r\nHost: im.example\r\nContent-Length: 5\r\n\r\nhello";

// How many bytes a response may have, and how many calls the network and its caller answer.
const ROOM: usize = 1000;

const CALLS: u64 = 1000;

/// One caller asks for a statement: how the service ended, and what the caller holds that was settled.
pub(crate) fn authority_in_memory<R: Wait + Threads + OpensLedgers + Sync>(
    rt: &R,
    alloc: Global,
) -> Result<Text, Memory> {
    served(rt, alloc, false, &[FETCH])
}

/// One caller asks twice, and the connection isn't kept.
pub(crate) fn authority_of_one<R: Wait + Threads + OpensLedgers + Sync>(
    rt: &R,
    alloc: Global,
) -> Result<Text, Memory> {
    served(rt, alloc, false, &[TWICE])
}

/// Callers whose connections are kept: one asks twice, one closes behind its first request, one breaks off, and one sends a body.
pub(crate) fn authority_of_streams<R: Wait + Threads + OpensLedgers + Sync>(
    rt: &R,
    alloc: Global,
) -> Result<Text, Memory> {
    served(rt, alloc, true, &[TWICE, CLOSE, CUT, BODY])
}

// The callers.
fn callers(alloc: Global, requests: &[&[u8]]) -> Result<Seq<MemoryPeer>, Memory> {
    let mut callers = Seq::new(alloc);
    for &request in requests {
        let peer = MemoryPeer::new(alloc, request, ROOM, &[], &[], CALLS)?;
        callers.push(peer)?;
    }
    Ok(callers)
}

fn served<R: Wait + Threads + OpensLedgers + Sync>(
    rt: &R,
    alloc: Global,
    stream: bool,
    requests: &[&[u8]],
) -> Result<Text, Memory> {
    let callers = callers(alloc, requests)?;
    let mut net = MemoryNetwork::new(alloc, Seq::new(alloc), callers, ROOM, &[], CALLS)?;
    let asked = Served {
        files: FILES,
        connections: requests.len() as u64,
        stream,
    };
    let told = told(rt, alloc, asked, &mut net);
    drop(net);
    told
}

// How the service ended, and what each caller holds that was settled.
fn told<R: Wait + Threads + OpensLedgers + Sync>(
    rt: &R,
    alloc: Global,
    asked: Served,
    net: &mut MemoryNetwork,
) -> Result<Text, Memory> {
    let mut told = authority_served(rt, alloc, asked, net)?;
    for peer in net.settled() {
        add_held(&mut told, peer.as_slice())?;
    }
    Ok(told)
}
