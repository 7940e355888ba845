// Why a node that started ends.

use fed_ports::{Address, Text};
use network_notes::Failures;
use plain_notes::{Notes, Sentence};
use std::alloc::Global;

/// A node that started.
#[derive(Drop)]
pub struct Started {
    /// Its identifier.
    pub(crate) id: Text,
    /// Where it listens.
    pub(crate) address: Address,
    /// How many connections it is to serve.
    pub(crate) connections: u64,
}

/// Says that the node ends, after how many connections or by which fault. Of one that never listened nothing is said here: why, stands
/// before.
pub(crate) fn explain_end(
    alloc: Global,
    node: &Started,
    failures: &Failures,
    status: u8,
    notes: &mut Notes,
) {
    let begun = Sentence::of(alloc, node.id.as_slice()).and(b" ends");
    match status {
        0 | 4 => notes.say(after_all(alloc, begun, node.connections)),
        5 => notes.say(begun.and(b": memory was wanting")),
        7 if !is_unheard(node, failures) => notes.say(begun.and(
            b": the network gives no further connection",
        )),
        8 => notes.say(begun.and(b": a counter of calls is at its end")),
        _ => {}
    }
}

fn after_all(alloc: Global, begun: Sentence, connections: u64) -> Sentence {
    let said = begun.and(b" after ").and_number(alloc, connections);
    let counted = if connections == 1 {
        said.and(b" connection")
    } else {
        said.and(b" connections")
    };
    counted.and(b", as many as --connections says")
}

// Whether nobody could be listened to at its address.
fn is_unheard(node: &Started, failures: &Failures) -> bool {
    failures.as_slice().iter().any(|told| match told {
        Some(failure) => failure.at == node.address,
        None => false,
    })
}
