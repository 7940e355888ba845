// What is said to a person of a node's files and of its network.

use fed_ports::Text;
use json_faults::explain_no_json;
use plain_notes::{Notes, Sentence};
use std::alloc::Global;

/// Says that the configuration's text isn't JSON, and where.
pub(crate) fn explain_text(alloc: Global, name: &Text, text: &[u8], notes: &mut Notes) {
    explain_no_json(alloc, Sentence::of(alloc, name.as_slice()), text, notes);
}

/// Says that the node resolves, which an authority alone doesn't.
pub(crate) fn explain_resolver(alloc: Global, name: &Text, notes: &mut Notes) {
    notes.say(Sentence::of(alloc, name.as_slice()).and(
        b" has the member resolver, and the authority of such a node isn't served alone",
    ));
}

/// Says that the node doesn't resolve.
pub(crate) fn explain_no_resolver(alloc: Global, name: &Text, notes: &mut Notes) {
    notes.say(Sentence::of(alloc, name.as_slice()).and(
        b" has no member resolver, which says for which trust anchors and how the node resolves",
    ));
}

/// Says that nobody can be listened to on the port.
pub fn explain_port(alloc: Global, port: u16, notes: &mut Notes) {
    let sentence = Sentence::of(alloc, b"port ").and_number(alloc, u64::from(port));
    notes.say(sentence.and(b" can't be listened on; does another program, or may this one not?"));
}

/// Says that no connection can be accepted any more.
pub fn explain_accept(alloc: Global, notes: &mut Notes) {
    notes.say(Sentence::of(alloc, b"no further connection can be accepted"));
}
