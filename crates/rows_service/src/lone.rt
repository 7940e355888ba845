// The service of a resolver, whose second caller comes once the first one was answered.

use crate::federation::{RESOLVER, RESOLVER_RING};
use crate::flag::Flag;
use crate::network::TwoCallers;
use crate::peer::Caller;
use crate::service::{Files, add_held, resolver_served};
use fed_base::{Memory, OpensLedgers, Text};
use std::alloc::Global;
use std::sync::Wait;
use std::thread::Threads;

// The files of the node.
const FILES: Files = Files {
    node: RESOLVER,
    ring: RESOLVER_RING,
};

// The node's list of subordinates is asked for.
const LIST: &[u8] = b"GET /list HTTP/1.1\r\nHost: resolver.example\r\n\r\n";

/// Two callers ask for the list, the second one once the first one was answered: how the service ended, and what the callers hold that
/// were settled.
pub(crate) fn lone_client<R: Threads + Wait + OpensLedgers + Sync>(
    rt: &R,
    alloc: Global,
) -> Result<Text, Memory> {
    let one = Flag::new();
    let two = Flag::new();
    let first = Caller {
        request: LIST,
        answered: &one,
    };
    let second = Caller {
        request: LIST,
        answered: &two,
    };
    let mut net = TwoCallers::new(alloc, first, second, Some(&one))?;
    let told = served(rt, alloc, &mut net);
    drop(net);
    told
}

fn served<R: Threads + Wait + OpensLedgers + Sync>(
    rt: &R,
    alloc: Global,
    net: &mut TwoCallers<'_>,
) -> Result<Text, Memory> {
    let mut told = resolver_served(rt, alloc, FILES, 2, net)?;
    add_settled(&mut told, net)?;
    Ok(told)
}

// Adds what each caller holds that was settled.
fn add_settled(told: &mut Text, net: &TwoCallers<'_>) -> Result<(), Memory> {
    for peer in net.settled() {
        add_held(told, peer.as_slice())?;
    }
    Ok(())
}
