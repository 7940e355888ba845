// Subordinates and trust anchors.

use crate::claims::metadata_at;
use crate::fault::Kind;
use crate::forms::Form;
use crate::keys::keys_in;
use crate::limits::constraints_at;
use crate::places::{
    hold, identifier_in, item_at, items_at, members_at, possible_number, possible_texts, under,
    whole_at,
};
use crate::policies::{is_truth, operators_at, policy_at};
use crate::stop::{Stop, fault};
use fed_base::Memory;
use fed_json::{Json, Member, find, text_at};
use std::alloc::Global;
use std::collections::BTreeSet;

// How many subordinates a node has at most.
const MOST_SUBORDINATES: usize = 10_000;

// How many trust anchors a resolver has at most.
const MOST_ANCHORS: usize = 64;

/// Stops where what stands at the place isn't a list of subordinates of the node of that identifier.
pub(crate) fn subordinates_at(
    alloc: Global,
    place: &[u8],
    tree: &Json,
    node: &[u8],
) -> Result<(), Stop> {
    let items = items_at(alloc, place, Form::Subordinates, tree)?;
    if items.len() > MOST_SUBORDINATES {
        let kind = Kind::Count(Form::Subordinates, items.len() as u64);
        return Err(fault(alloc, place, kind));
    }
    for (index, item) in items.iter().enumerate() {
        let at = item_at(alloc, place, index)?;
        subordinate_at(alloc, at.as_slice(), item)?;
        if id_of(item) == node {
            let at = under(alloc, at.as_slice(), b"entity_id")?;
            return Err(fault(alloc, at.as_slice(), Kind::Itself));
        }
    }
    all_differ(alloc, place, items)
}

fn subordinate_at(alloc: Global, place: &[u8], tree: &Json) -> Result<(), Stop> {
    let members = members_at(alloc, place, Form::Subordinate, tree)?;
    identifier_in(alloc, place, members, b"entity_id")?;
    keys_in(alloc, place, members, b"jwks")?;
    for claim in [
        "metadata",
        "metadata_policy",
        "metadata_policy_crit",
        "constraints",
    ] {
        claim_in(alloc, place, members, claim.as_bytes())?;
    }
    possible_texts(alloc, place, members, b"entity_types")?;
    possible_texts(alloc, place, members, b"mark_types")?;
    possible_truth(alloc, place, members, b"intermediate")
}

// The claim of that name about a subordinate, where it is there.
fn claim_in(alloc: Global, place: &[u8], members: &[Member], name: &[u8]) -> Result<(), Stop> {
    match find(members, name) {
        Some(claim) => {
            let place = under(alloc, place, name)?;
            claim_at(alloc, place.as_slice(), name, claim)?;
            whole_at(alloc, place.as_slice(), claim)
        }
        None => Ok(()),
    }
}

fn claim_at(alloc: Global, place: &[u8], name: &[u8], claim: &Json) -> Result<(), Stop> {
    if name == b"metadata".as_slice() {
        metadata_at(alloc, place, claim)
    } else if name == b"metadata_policy".as_slice() {
        policy_at(alloc, place, claim)
    } else if name == b"metadata_policy_crit".as_slice() {
        operators_at(alloc, place, claim)
    } else {
        constraints_at(alloc, place, claim)
    }
}

fn possible_truth(
    alloc: Global,
    place: &[u8],
    members: &[Member],
    name: &[u8],
) -> Result<(), Stop> {
    match find(members, name) {
        Some(tree) => {
            let place = under(alloc, place, name)?;
            hold(alloc, place.as_slice(), Form::Truth, tree, is_truth(tree))
        }
        None => Ok(()),
    }
}

/// Stops where what stands at the place isn't a list of trust anchors.
pub(crate) fn anchors_at(alloc: Global, place: &[u8], tree: &Json) -> Result<(), Stop> {
    let items = items_at(alloc, place, Form::Anchors, tree)?;
    if items.is_empty() || items.len() > MOST_ANCHORS {
        let kind = Kind::Count(Form::Anchors, items.len() as u64);
        return Err(fault(alloc, place, kind));
    }
    for (index, item) in items.iter().enumerate() {
        let at = item_at(alloc, place, index)?;
        anchor_at(alloc, at.as_slice(), item)?;
    }
    all_differ(alloc, place, items)
}

fn anchor_at(alloc: Global, place: &[u8], tree: &Json) -> Result<(), Stop> {
    let members = members_at(alloc, place, Form::Anchor, tree)?;
    identifier_in(alloc, place, members, b"entity_id")?;
    keys_in(alloc, place, members, b"jwks")?;
    possible_number(alloc, place, members, b"depth", 1, 12)?;
    possible_number(alloc, place, members, b"calls", 1, 160)?;
    possible_number(alloc, place, members, b"paths", 1, 4096)
}

// The identifier of an entity, or nothing.
fn id_of(tree: &Json) -> &[u8] {
    match tree {
        Json::Object(members) => match text_at(members.as_slice(), b"entity_id") {
            Some(id) => id.as_slice(),
            None => b"",
        },
        _ => b"",
    }
}

// Stops at the first entity that stands in the list before.
fn all_differ(alloc: Global, place: &[u8], items: &[Json]) -> Result<(), Stop> {
    match second_in(alloc, items)? {
        Some(index) => Err(second(alloc, place, items, index)?),
        None => Ok(()),
    }
}

// The first place at which an entity stands again. Each is looked up among those before it in a tree, as the reading does.
fn second_in(alloc: Global, items: &[Json]) -> Result<Option<usize>, Memory> {
    let mut seen: BTreeSet<&[u8], Global> = BTreeSet::new(alloc);
    for (index, item) in items.iter().enumerate() {
        let added = seen.insert(id_of(item))?;
        if !added {
            return Ok(Some(index));
        }
    }
    Ok(None)
}

fn second(alloc: Global, place: &[u8], items: &[Json], index: usize) -> Result<Stop, Memory> {
    let earlier = first_of(items, index);
    let first = item_at(alloc, place, earlier)?;
    let at = item_at(alloc, place, index)?;
    let at = under(alloc, at.as_slice(), b"entity_id")?;
    Ok(fault(alloc, at.as_slice(), Kind::Again(first)))
}

// The first place of the entity at that place.
fn first_of(items: &[Json], index: usize) -> usize {
    let id = match items.get(index) {
        Some(item) => id_of(item),
        None => b"",
    };
    items
        .iter()
        .position(|item| id_of(item) == id)
        .unwrap_or(index)
}
