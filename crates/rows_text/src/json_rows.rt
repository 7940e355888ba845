// Values of JSON, read, copied and written.

use crate::spelling::{bytes_of, cut, number, told, word};
use fed_base::{Duplicate, Memory, Seq, Text};
use fed_json::{Json, Member, is_whole, json_equal, object_members, read_tree, write_tree};
use std::alloc::Global;

/// The compact text of a copy of the tree: `odd` is a number whose value isn't kept, and a tree with one has no text.
pub fn written(alloc: Global, tree: &Json) -> Result<Text, Memory> {
    let copy = tree.copy(alloc)?;
    let text = copy_written(alloc, tree, &copy);
    drop(copy);
    text
}

fn copy_written(alloc: Global, tree: &Json, copy: &Json) -> Result<Text, Memory> {
    if !json_equal(tree, copy) {
        word(alloc, "another tree")
    } else if is_whole(copy) {
        write_tree(alloc, copy)
    } else if matches!(copy, Json::Odd) {
        word(alloc, "odd")
    } else {
        word(alloc, "not whole")
    }
}

/// The compact text of what the text reads as.
pub fn json(alloc: Global, given: &str) -> Result<Text, Memory> {
    let text = bytes_of(alloc, given)?;
    compact(alloc, text.as_slice())
}

fn compact(alloc: Global, text: &[u8]) -> Result<Text, Memory> {
    match read_tree(alloc, text) {
        Ok(tree) => {
            let text = written(alloc, &tree);
            drop(tree);
            text
        },
        Err(fault) => told(alloc, &fault),
    }
}

/// The same of a list in a list and so on, with as many brackets open at its middle.
pub fn nested(alloc: Global, given: &str) -> Result<Text, Memory> {
    let mut text = Text::new(alloc);
    for bracket in [b'[', b']'] {
        for _ in 0..number(given) {
            text.push(bracket)?;
        }
    }
    compact(alloc, text.as_slice())
}

/// The compact text of a tree that is built: an object of two members of these names, a text, or a whole number.
pub fn built(alloc: Global, given: &str) -> Result<Text, Memory> {
    let (kind, given) = cut(given);
    match kind {
        "object" => {
            let (first, second) = cut(given);
            let tree = pair(alloc, bytes_of(alloc, first)?, bytes_of(alloc, second)?)?;
            let text = written(alloc, &tree);
            drop(tree);
            text
        },
        "text" => written(alloc, &Json::Text(bytes_of(alloc, given)?)),
        _ => written(alloc, &Json::Int(given.parse::<i128>().unwrap_or(0))),
    }
}

fn null(name: Text) -> Member {
    Member {
        name,
        value: Json::Null,
    }
}

fn pair(alloc: Global, first: Text, second: Text) -> Result<Json, Memory> {
    let mut members = Seq::new(alloc);
    members.push(null(first))?;
    members.push(null(second))?;
    Ok(Json::Object(members))
}

/// The value under a name in the object that a text reads as.
pub fn find(alloc: Global, given: &str) -> Result<Text, Memory> {
    let (name, text) = cut(given);
    match read_tree(alloc, text.as_bytes()) {
        Ok(tree) => {
            let told = found(alloc, object_members(&tree), name.as_bytes());
            drop(tree);
            told
        },
        Err(fault) => told(alloc, &fault),
    }
}

fn found(alloc: Global, members: &[Member], name: &[u8]) -> Result<Text, Memory> {
    match fed_json::find(members, name) {
        Some(value) => written(alloc, value),
        None => word(alloc, "none"),
    }
}
