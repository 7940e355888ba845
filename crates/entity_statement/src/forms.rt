// The form of each claim: what its value says, and `None` where it hasn't the form.

ghost use Rattle.std.specs.Prelude.{◌≡◌, IfOk, bytes_eq, option_map};
ghost use Rattle.std.specs.List.{list_any};
ghost use Rattle.fed_json.specs.Trees.{each};
ghost use Rattle.entity_statement.specs.Forms.{hints_of, identifier, moment, once};

use entity_id::EntityId;
use fed_base::{MOMENT_LIMIT, Memory, Seq};
use fed_json::{Json, count_below};
use std::alloc::Global;

// How many hints an entity has at most.
const MAX_HINTS: usize = 32;

/// The identifier that the text is.
#[tactic(auto, unfolding(crate::specs::Forms::identifier))]
pub fn identifier(alloc: Global, tree: &Json) -> Result<Option<EntityId>, Memory>
    ensures { IfOk result (λ id. id ≡ identifier tree.now) }
{
    match tree {
        Json::Text(text) => EntityId::of(alloc, text.as_slice()),
        _ => Ok(None),
    }
}

/// The moment that the number is.
#[tactic(auto, unfolding(crate::specs::Forms::moment))]
pub(crate) fn moment(tree: &Json) -> Option<u64>
    ensures { result ≡ moment tree.now }
{
    count_below(tree, MOMENT_LIMIT)
}

/// The identifiers of a list of 1 to 32, each once, at its first place.
#[tactic(auto, unfolding(crate::specs::Forms::hints_of))]
pub fn read_hints(alloc: Global, tree: &Json) -> Result<Option<Seq<EntityId>>, Memory>
    ensures { IfOk result (λ hints. hints ≡ hints_of tree.now) }
{
    match tree {
        Json::List(items) if 0 < items.len() && items.len() <= MAX_HINTS => each_once(
            alloc,
            items.as_slice(),
        ),
        _ => Ok(None),
    }
}

fn each_once(alloc: Global, items: &[Json]) -> Result<Option<Seq<EntityId>>, Memory>
    ensures { IfOk result (λ hints. hints ≡ option_map once (each identifier items.now)) }
{
    let mut hints = Seq::new(alloc);
    for item in items {
        let Some(id) = identifier(alloc, item)? else {
            return Ok(None);
        };
        if !contains(hints.as_slice(), &id) {
            hints.push(id)?;
        }
    }
    Ok(Some(hints))
}

fn contains(ids: &[EntityId], id: &EntityId) -> bool
    ensures { result ≡ list_any (bytes_eq id.now) ids.now }
{
    ids.iter().any(|other| id == other)
}
