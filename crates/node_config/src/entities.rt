// Entities with their keys, and trust anchors.

ghost use Rattle.std.specs.Prelude.{◌≡◌, IfOk, IsTrue, map};
ghost use Rattle.std.specs.List.{list_all};
ghost use Rattle.fed_json.specs.Forms.{IsWellFormed, members_well_formed, well_formed};
ghost use Rattle.fed_json.specs.Trees.{each};
ghost use Rattle.node_config.specs.Answers.{Reads, ReadsBy};
ghost use Rattle.node_config.specs.Forms.{needed as member_in};
ghost use Rattle.entity_statement.specs.Forms.{identifier as identifier_of};
ghost use Rattle.node_config.specs.Subordinates.{anchor_in, anchor_of, anchors_of, are_anchors, bounds_in, entity_in, is_anchor_count, keys_of};
ghost use Rattle.node_config.specs.Told.{told_anchor, told_bounds, told_entity};

use crate::distinct::{HasId, all_differ};
use crate::fault::FormFault;
use crate::members::{needed, number_up_to};
use entity_id::EntityId;
use entity_statement::identifier;
use fed_base::{Duplicate, Memory, Seq};
use fed_json::{Json, Member};
use jwk_set::{JwkSet, SetFault};
use std::alloc::Global;

// How many anchors a resolver has at most.
const MOST_ANCHORS: usize = 64;

// How far a search goes at most, which is also how far it goes where its anchor says nothing else: so many statements of superiors in a
// chain, pages that are asked for, and partial paths.
const MOST_DEPTH: u64 = 12;

const MOST_CALLS: u64 = 160;

const MOST_PATHS: u64 = 4_096;

/// An entity with its keys.
#[derive(Drop)]
pub(crate) struct EntityKeys {
    pub(crate) id: EntityId,
    pub(crate) keys: JwkSet,
}

/// A trust anchor with its keys (OpenID Federation 1.0 section 1.2), and how far one search for a chain up to it goes.
#[derive(Drop)]
pub struct AnchorPart {
    pub anchor: EntityId,
    pub keys: JwkSet,
    /// How many statements of superiors a chain has at most, 1 to 12.
    pub depth: u64,
    /// How many pages are asked for at most, 1 to 160.
    pub calls: u64,
    /// How many paths are begun at most, 1 to 4,096, that of the leaf alone counted.
    pub paths: u64,
}

// How far a search goes.
#[derive(Clone, Copy, Drop)]
struct Bounds {
    depth: u64,
    calls: u64,
    paths: u64,
}

impl Duplicate for AnchorPart {
    fn copy(&self, alloc: Global) -> Result<Self, Memory> {
        let anchor = self.anchor.copy(alloc)?;
        let keys = self.keys.copy(alloc)?;
        Ok(AnchorPart {
            anchor,
            keys,
            depth: self.depth,
            calls: self.calls,
            paths: self.paths,
        })
    }
}

impl HasId for AnchorPart {
    ghost id_of = { λ a. a.anchor };

    fn id(&self) -> &EntityId {
        &self.anchor
    }
}

/// An identifier that must be there.
pub(crate) fn identifier_at(
    alloc: Global,
    members: &[Member],
    name: &[u8],
) -> Result<EntityId, FormFault>
    ensures { Reads result (member_in name.now identifier_of members.now) }
{
    let tree = needed(members, name)?;
    identifier(alloc, tree)?.ok_or(FormFault::Shape)
}

/// A key set that must be there.
pub(crate) fn keys_at(alloc: Global, members: &[Member], name: &[u8]) -> Result<JwkSet, FormFault>
    requires { IsTrue (members_well_formed members.now) }
    ensures { ReadsBy (λ set. set.keys) result (member_in name.now keys_of members.now) }
{
    let tree = needed(members, name)?;
    match JwkSet::read(alloc, tree) {
        Ok(set) => Ok(set),
        Err(SetFault::Memory) => Err(FormFault::Memory),
        Err(_) => Err(FormFault::Shape),
    }
}

/// An entity and its keys, by the members `entity_id` and `jwks`.
#[tactic(auto, unfolding(crate::specs::Subordinates::entity_in))]
pub(crate) fn entity_in(alloc: Global, members: &[Member]) -> Result<EntityKeys, FormFault>
    requires { IsTrue (members_well_formed members.now) }
    ensures { ReadsBy told_entity result (entity_in members.now) }
{
    let id = identifier_at(alloc, members, b"entity_id")?;
    let keys = keys_at(alloc, members, b"jwks")?;
    Ok(EntityKeys { id, keys })
}

/// A list of 1 to 64 anchors, all different.
#[tactic(auto, unfolding(crate::specs::Subordinates::anchors_of))]
pub(crate) fn read_anchors(alloc: Global, tree: &Json) -> Result<Seq<AnchorPart>, FormFault>
    requires { IsWellFormed tree.now }
    ensures { ReadsBy (map told_anchor) result (anchors_of tree.now) }
{
    let Json::List(items) = tree else {
        return Err(FormFault::Shape);
    };
    let anchors = each_anchor(alloc, items.as_slice())?;
    if are_anchors(alloc, anchors.as_slice())? {
        Ok(anchors)
    } else {
        Err(FormFault::Shape)
    }
}

#[tactic(auto, using(crate::proofs::Lists::anchors_are))]
fn are_anchors(alloc: Global, anchors: &[AnchorPart]) -> Result<bool, Memory>
    ensures { IfOk result (λ are. are ≡ are_anchors (map told_anchor anchors.now)) }
{
    if is_anchor_count(anchors.len()) {
        all_differ(alloc, anchors)
    } else {
        Ok(false)
    }
}

fn is_anchor_count(count: usize) -> bool
    ensures { result ≡ is_anchor_count count }
{
    0 < count && count <= MOST_ANCHORS
}

fn each_anchor(alloc: Global, items: &[Json]) -> Result<Seq<AnchorPart>, FormFault>
    requires { IsTrue (list_all well_formed items.now) }
    ensures { ReadsBy (map told_anchor) result (each anchor_of items.now) }
{
    let mut anchors = Seq::new(alloc);
    for item in items {
        anchors.push(read_anchor(alloc, item)?)?;
    }
    Ok(anchors)
}

#[tactic(auto, unfolding(crate::specs::Subordinates::anchor_of))]
fn read_anchor(alloc: Global, tree: &Json) -> Result<AnchorPart, FormFault>
    requires { IsWellFormed tree.now }
    ensures { ReadsBy told_anchor result (anchor_of tree.now) }
{
    match tree {
        Json::Object(members) => anchor_in(alloc, members.as_slice()),
        _ => Err(FormFault::Shape),
    }
}

// An anchor, by the members of an entity and by `depth`, `calls` and `paths`.
#[tactic(auto, unfolding(crate::specs::Subordinates::anchor_in))]
fn anchor_in(alloc: Global, members: &[Member]) -> Result<AnchorPart, FormFault>
    requires { IsTrue (members_well_formed members.now) }
    ensures { ReadsBy told_anchor result (anchor_in members.now) }
{
    let bounds = bounds_in(members)?;
    let entity = entity_in(alloc, members)?;
    Ok(AnchorPart {
        anchor: entity.id,
        keys: entity.keys,
        depth: bounds.depth,
        calls: bounds.calls,
        paths: bounds.paths,
    })
}

#[tactic(auto, unfolding(crate::specs::Subordinates::bounds_in))]
fn bounds_in(members: &[Member]) -> Result<Bounds, FormFault>
    ensures { ReadsBy told_bounds result (bounds_in members.now) }
{
    let depth = number_up_to(members, b"depth", MOST_DEPTH)?;
    let calls = number_up_to(members, b"calls", MOST_CALLS)?;
    let paths = number_up_to(members, b"paths", MOST_PATHS)?;
    Ok(Bounds {
        depth,
        calls,
        paths,
    })
}
