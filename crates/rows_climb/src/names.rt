// Names of entities in rows: identifiers without their scheme.

use chain_climb::Path;
use entity_id::EntityId;
use fed_base::{Memory, Text};
use std::alloc::Global;

/// The identifier of a name.
pub(crate) fn text_of(alloc: Global, name: &str) -> Result<Text, Memory> {
    let mut text = Text::of(alloc, b"https://")?;
    text.append(name.as_bytes())?;
    Ok(text)
}

/// The entity of a name, and `None` where it has none.
pub(crate) fn entity(alloc: Global, name: &str) -> Result<Option<EntityId>, Memory> {
    let text = text_of(alloc, name)?;
    EntityId::of(alloc, text.as_slice())
}

fn add_name(out: &mut Text, entity: &EntityId) -> Result<(), Memory> {
    if !out.is_empty() {
        out.push(b'>')?;
    }
    out.append(entity.text().strip_prefix(b"https://").unwrap_or(b""))
}

/// The names on a path, from the leaf up.
pub(crate) fn path_names(alloc: Global, path: &Path) -> Result<Text, Memory> {
    let mut out = Text::new(alloc);
    for entity in path.entities.as_slice() {
        add_name(&mut out, entity)?;
    }
    Ok(out)
}
