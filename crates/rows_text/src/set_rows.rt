// Lists that are taken as sets.

use crate::json_rows::written;
use crate::port_rows::joined;
use crate::spelling::{cut, told, word};
use fed_base::{Memory, Seq, Text};
use fed_json::{Json, includes, includes_each, intersect, read_tree, union};
use std::alloc::Global;

/// The union and the intersection of two lists, and whether the first includes the second, by a scan and by codes.
pub fn sets(alloc: Global, given: &str) -> Result<Text, Memory> {
    let (first, second) = cut(given);
    match (
        read_tree(alloc, first.as_bytes()),
        read_tree(alloc, second.as_bytes()),
    ) {
        (Ok(Json::List(first)), Ok(Json::List(second))) => of_lists(alloc, &first, &second),
        _ => word(alloc, "no lists"),
    }
}

fn of_lists(alloc: Global, first: &Seq<Json>, second: &Seq<Json>) -> Result<Text, Memory> {
    let mut parts = Seq::new(alloc);
    add_lists(alloc, first, second, &mut parts)?;
    add_included(alloc, first, second, &mut parts)?;
    joined(alloc, parts.as_slice(), b" | ")
}

// Adds the union and the intersection.
fn add_lists(
    alloc: Global,
    first: &Seq<Json>,
    second: &Seq<Json>,
    parts: &mut Seq<Text>,
) -> Result<(), Memory> {
    parts.push(items(alloc, union(alloc, first, second)?)?)?;
    parts.push(items(alloc, intersect(alloc, first, second)?)?)
}

// Adds whether the first list includes the second.
fn add_included(
    alloc: Global,
    first: &Seq<Json>,
    second: &Seq<Json>,
    parts: &mut Seq<Text>,
) -> Result<(), Memory> {
    parts.push(told(alloc, &includes(first, second))?)?;
    parts.push(told(alloc, &includes_each(alloc, first, second)?)?)
}

fn add_items(alloc: Global, texts: &mut Seq<Text>, list: &[Json]) -> Result<(), Memory> {
    for item in list {
        texts.push(written(alloc, item)?)?;
    }
    Ok(())
}

// The items of a list, which may hold a number whose value isn't kept.
fn items(alloc: Global, list: Seq<Json>) -> Result<Text, Memory> {
    let mut texts = Seq::new(alloc);
    let added = add_items(alloc, &mut texts, list.as_slice());
    drop(list);
    added?;
    joined(alloc, texts.as_slice(), b" ")
}
