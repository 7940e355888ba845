// Names of entities in rows: identifiers without their scheme.

use crate::words::number;
use entity_id::EntityId;
use fed_base::{Memory, Seq, Text};
use std::alloc::Global;

/// The entity of a name, and `None` where it has none.
pub(crate) fn entity(alloc: Global, name: &[u8]) -> Result<Option<EntityId>, Memory> {
    let mut text = Text::of(alloc, b"https://")?;
    text.append(name)?;
    EntityId::of(alloc, text.as_slice())
}

/// The name of an entity.
pub(crate) fn name_of(id: &EntityId) -> &[u8] {
    id.text().strip_prefix(b"https://").unwrap_or(b"")
}

fn add_words(alloc: Global, words: &mut Seq<Text>, part: &str) -> Result<(), Memory> {
    for word in part.split(' ') {
        if word != "-" {
            words.push(Text::of(alloc, word.as_bytes())?)?;
        }
    }
    Ok(())
}

/// The words of a part, with a space between two: none where it is `-`.
pub(crate) fn words(alloc: Global, part: &str) -> Result<Seq<Text>, Memory> {
    let mut words = Seq::new(alloc);
    add_words(alloc, &mut words, part)?;
    Ok(words)
}

fn add_entity(alloc: Global, entities: &mut Seq<EntityId>, name: &[u8]) -> Result<(), Memory> {
    match entity(alloc, name)? {
        Some(id) => entities.push(id),
        None => Ok(()),
    }
}

// Adds the entities that a word names: `x*3` names `x1`, `x2` and `x3`.
fn add_named(alloc: Global, entities: &mut Seq<EntityId>, word: &str) -> Result<(), Memory> {
    let Some((name, count)) = word.split_once('*') else {
        return add_entity(alloc, entities, word.as_bytes());
    };
    for place in 0..number(count) {
        let next = place.saturating_add(1);
        let name = format!(in alloc; "{name}{next}")?;
        add_entity(alloc, entities, name.as_bytes())?;
    }
    Ok(())
}

fn add_entities(alloc: Global, entities: &mut Seq<EntityId>, part: &str) -> Result<(), Memory> {
    for word in part.split(' ') {
        if word != "-" {
            add_named(alloc, entities, word)?;
        }
    }
    Ok(())
}

/// The entities that a part names, with a space between two.
pub(crate) fn entities(alloc: Global, part: &str) -> Result<Seq<EntityId>, Memory> {
    let mut entities = Seq::new(alloc);
    add_entities(alloc, &mut entities, part)?;
    Ok(entities)
}
