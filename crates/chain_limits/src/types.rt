// The entity types that are allowed.

ghost use Rattle.std.specs.Prelude.{◌≡◌, ◌&&◌, List, ℕ, bytes_eq, IfOk, Some};
ghost use Rattle.std.specs.List.{filter, list_all, list_any};
ghost use Rattle.fed_json.specs.Forms.{IsWellFormed};
ghost use Rattle.chain_limits.specs.Types.{in_set, names_type, stays as type_stays, types_allowed, KeepsAllowed};

use crate::place::Place;
use fed_base::{Duplicate, Memory, Seq, Text};
use fed_json::{Json, Member};
use std::alloc::Global;
use std::collections::BTreeSet;

// The type that every entity of a federation may have.
const FEDERATION_ENTITY: &[u8] = b"federation_entity";

/// The metadata without the types that some place's list of allowed types doesn't name (OpenID Federation 1.0 section
/// 6.2.3). `federation_entity` stays. The types that stay keep their order.
pub fn allowed_types(alloc: Global, places: &Seq<Place>, metadata: &Json) -> Result<Json, Memory>
    ensures types { IfOk result (λ tree. tree ≡ types_allowed places.now metadata.now) }
    ensures allowed { IfOk result (KeepsAllowed places.now metadata.now) }
    ensures well_formed { IsWellFormed metadata.now → IfOk result IsWellFormed }
{
    let Json::Object(members) = metadata else {
        return metadata.copy(alloc);
    };
    let names = named_by_all(alloc, places.as_slice())?;
    let kept = those_that_stay(alloc, &names, members.as_slice())?;
    Ok(Json::Object(kept))
}

// Copies of the members whose types stay, where `names` are those that all lists name.
fn those_that_stay(
    alloc: Global,
    names: &Option<BTreeSet<Vec<u8>>>,
    members: &[Member],
) -> Result<Seq<Member>, Memory>
    ensures { IfOk result (λ kept. kept ≡ filter (λ m. type_stays names.now m.name) members.now) }
{
    let mut kept = Seq::new(alloc);
    for member in members {
        if stays(names, member.name.as_slice()) {
            kept.push(member.copy(alloc)?)?;
        }
    }
    Ok(kept)
}

fn stays(names: &Option<BTreeSet<Vec<u8>>>, entity_type: &[u8]) -> bool
    ensures { result ≡ type_stays names.now entity_type.now }
{
    entity_type == FEDERATION_ENTITY || has(names, entity_type)
}

// The types that the list of each place names that has one; none where no place has one.
fn named_by_all(alloc: Global, places: &[Place]) -> Result<Option<BTreeSet<Vec<u8>>>, Memory>
    ensures { IfOk result (λ names. (entity_type : List ℕ)
        → in_set names entity_type ≡ list_all (λ place. names_type entity_type place.limits) places.now) }
{
    let mut names = None;
    for place in places {
        if let Some(types) = &place.limits.types {
            names = Some(named_too(alloc, &names, types)?);
        }
    }
    Ok(names)
}

// Those of the names that are in the list too. They are kept in a tree, so that long lists are no burden.
fn named_too(
    alloc: Global,
    names: &Option<BTreeSet<Vec<u8>>>,
    types: &Seq<Text>,
) -> Result<BTreeSet<Vec<u8>>, Memory>
    ensures { IfOk result (λ both. (entity_type : List ℕ)
        → in_set (Some both) entity_type ≡ (in_set names.now entity_type && list_any (bytes_eq entity_type) types.now)) }
{
    let mut both = BTreeSet::new(alloc);
    for name in types.as_slice() {
        if has(names, name.as_slice()) {
            both.insert(Vec::from_slice(alloc, name.as_slice())?)?;
        }
    }
    Ok(both)
}

// Whether the name is one of them, or there are no lists of names.
fn has(names: &Option<BTreeSet<Vec<u8>>>, name: &[u8]) -> bool
    ensures { result ≡ in_set names.now name.now }
{
    match names {
        Some(names) => names.contains(name),
        None => true,
    }
}
