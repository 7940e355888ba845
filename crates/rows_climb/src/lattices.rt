// The paths of a lattice, written out: what a search over it makes, without the search.

use crate::names::{entity, text_of};
use crate::words::{add_count, cut};
use chain_climb::Path;
use entity_id::{EntityId, fetch_url};
use fed_base::{Duplicate, Memory, Seq, Text};
use std::alloc::Global;

fn read_names(alloc: Global, given: &str) -> Result<Seq<EntityId>, Memory> {
    let mut entities = Seq::new(alloc);
    for name in given.split(',') {
        if let Some(entity) = entity(alloc, name)? {
            entities.push(entity)?;
        }
    }
    Ok(entities)
}

fn is_on(path: &Path, entity: &EntityId) -> bool {
    path.entities
        .as_slice()
        .iter()
        .any(|other| *entity == *other)
}

// The path with an entity more, and with the URL of its statement about an entity.
fn longer(alloc: Global, path: &Path, entity: &EntityId, endpoint: &Text) -> Result<Path, Memory> {
    let mut entities = path.entities.copy(alloc)?;
    entities.push(entity.copy(alloc)?)?;
    let mut urls = path.urls.copy(alloc)?;
    urls.push(fetch_url(alloc, endpoint, entity)?)?;
    Ok(Path { entities, urls })
}

// Adds the paths that go on from one, while there are fewer than so many.
fn add_longer(
    alloc: Global,
    paths: &mut Seq<Path>,
    path: &Path,
    entities: &Seq<EntityId>,
    most: usize,
) -> Result<(), Memory> {
    let endpoint = text_of(alloc, "e1/fetch")?;
    for entity in entities.as_slice() {
        if !is_on(path, entity) && paths.len() < most {
            paths.push(longer(alloc, path, entity, &endpoint)?)?;
        }
    }
    Ok(())
}

// Adds those that go on from the path at this place, where there is one.
fn add_after(
    alloc: Global,
    paths: &mut Seq<Path>,
    at: usize,
    entities: &Seq<EntityId>,
    most: usize,
) -> Result<(), Memory> {
    if at < paths.len() {
        let path = paths.as_slice()[at].copy(alloc)?;
        let added = add_longer(alloc, paths, &path, entities, most);
        drop(path);
        added
    } else {
        Ok(())
    }
}

// The path of the leaf alone.
fn leaf_path(alloc: Global, leaf: &EntityId) -> Result<Path, Memory> {
    let endpoint = text_of(alloc, "e1/fetch")?;
    let empty = Path {
        entities: Seq::new(alloc),
        urls: Seq::new(alloc),
    };
    let path = longer(alloc, &empty, leaf, &endpoint);
    drop(empty);
    path
}

fn write_out(alloc: Global, entities: &Seq<EntityId>, most: usize) -> Result<Seq<Path>, Memory> {
    let mut paths = Seq::new(alloc);
    if let Some(leaf) = entities.as_slice().first() {
        paths.push(leaf_path(alloc, leaf)?)?;
    }
    for at in 0..most {
        add_after(alloc, &mut paths, at, entities, most)?;
    }
    Ok(paths)
}

// How many paths there are, and how many entities they have together.
fn counted(alloc: Global, paths: &Seq<Path>) -> Result<Text, Memory> {
    let mut together = 0u64;
    for path in paths.as_slice() {
        together = together.saturating_add(path.entities.len() as u64);
    }
    let mut out = Text::new(alloc);
    add_count(alloc, &mut out, paths.len() as u64, b"paths")?;
    add_count(alloc, &mut out, together, b"entities")?;
    Ok(out)
}

/// `lattice NUMBER NAMES`: so many of the paths from the first entity, and how many entities they have together.
pub(crate) fn lattice(alloc: Global, given: &str) -> Result<Text, Memory> {
    let (number, names) = cut(given, '\t');
    let entities = read_names(alloc, names)?;
    let paths = write_out(alloc, &entities, number.parse().unwrap_or(0))?;
    counted(alloc, &paths)
}
