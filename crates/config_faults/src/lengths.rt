// What a node states that is too long.

use crate::places::item_at;
use fed_base::{Memory, Text};
use fed_json::{Json, find, is_whole, object_members, write_tree};
use plain_notes::{Notes, Sentence};
use std::alloc::Global;

/// Says what the node of that configuration states at too great a length, by the member that makes it so, `metadata` or `subordinates`.
pub fn explain_length(alloc: Global, file: &Text, config: &Json, member: &Text, notes: &mut Notes) {
    let begun = Sentence::of(alloc, file.as_slice()).and(b": ");
    let members = object_members(config);
    match find(members, b"subordinates") {
        Some(Json::List(items)) if member.as_slice() == b"subordinates".as_slice() => {
            notes.say(longest_of(
                alloc,
                begun.and(
                    b"a statement about one of the subordinates has more than 179000 bytes of claims",
                ),
                items.as_slice(),
            ));
        }
        _ => notes.say(begun.and(
            b"the node's own claims, as metadata, have more than 179000 bytes together",
        )),
    }
}

// The longest of the subordinates.
fn longest_of(alloc: Global, begun: Sentence, items: &[Json]) -> Sentence {
    let mut longest = (0, 0);
    for (index, item) in items.iter().enumerate() {
        let length = length_of(alloc, item);
        if longest.1 < length {
            longest = (index, length);
        }
    }
    match item_at(alloc, b"subordinates", longest.0) {
        Ok(place) => begun
            .and(b"; the longest is ")
            .and(place.as_slice())
            .and(b", with ")
            .and_number(alloc, longest.1)
            .and(b" bytes"),
        Err(Memory) => begun,
    }
}

// How many bytes the value has as compact JSON, or 0 where it can't be written.
fn length_of(alloc: Global, tree: &Json) -> u64 {
    if !is_whole(tree) {
        return 0;
    }
    match write_tree(alloc, tree) {
        Ok(text) => text.len() as u64,
        Err(_) => 0,
    }
}
