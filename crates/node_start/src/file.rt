// The name of a node's ring.

use fed_base::{Duplicate, Text};
use fed_json::{Json, object_members, read_tree, text_at};
use fed_ports::Store;
use std::alloc::Global;

/// The name of the ring's file, as the configuration file of that name has it.
pub fn ring_name<D: Store>(alloc: Global, name: &Text, store: &mut D) -> Option<Text> {
    let Ok(Some(text)) = store.load(alloc, name) else {
        return None;
    };
    match read_tree(alloc, text.as_slice()) {
        Ok(tree) => {
            let ring = ring_in(alloc, &tree);
            drop(tree);
            ring
        }
        Err(_) => None,
    }
}

fn ring_in(alloc: Global, tree: &Json) -> Option<Text> {
    match text_at(object_members(tree), b"ring") {
        Some(ring) => ring.copy(alloc).ok(),
        None => None,
    }
}
