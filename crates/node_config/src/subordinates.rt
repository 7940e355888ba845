// The entities of which the node is a superior.

ghost use Rattle.std.specs.Prelude.{◌≡◌, ◌&&◌, IfOk, IsTrue, OnOk, bytes_eq, codes, map, option_map, length, nat_le, not, unwrap_or, false};
ghost use Rattle.std.specs.List.{AllByRecursion, list_all, list_any};
ghost use Rattle.fed_json.specs.Forms.{IsWellFormed, members_well_formed, well_formed};
ghost use Rattle.fed_json.specs.Trees.{each};
ghost use Rattle.node_config.specs.Answers.{Reads, ReadsBy};
ghost use Rattle.node_config.specs.Forms.{possible};
ghost use Rattle.node_config.specs.Stated.{AreAbout, IsSubordinate};
ghost use Rattle.node_config.specs.Subordinates.{are_subordinates, claims_about_in, listing_in, subordinate_in, subordinate_of, subordinates_of};
ghost use Rattle.node_config.specs.Told.{told_subordinate};
ghost use Rattle.policy_merge.specs.Shapes.{as_truth};

use crate::claims::{Claim, claim_in};
use crate::distinct::{HasId, all_differ};
use crate::entities::entity_in;
use crate::fault::FormFault;
use crate::members::texts;
use entity_id::EntityId;
use fed_base::{Duplicate, Memory, Seq, Text};
use fed_json::{Json, Member, find};
use jwk_set::JwkSet;
use std::alloc::Global;

// How many subordinates a node has at most.
const MOST_SUBORDINATES: usize = 10_000;

/// An entity of which the node is a superior.
#[derive(Drop)]
pub struct SubordinateConfig {
    pub id: EntityId,
    /// The keys that its statement names.
    pub jwks: JwkSet,
    pub claims: ClaimsAbout,
    pub listing: Listing,
}

/// What the statement about a subordinate claims of it beside its keys, as it is configured (OpenID Federation 1.0 sections 3.1.1 and
/// 3.1.3).
#[derive(Drop)]
pub struct ClaimsAbout {
    pub metadata: Option<Json>,
    /// The claim `metadata_policy`.
    pub policy: Option<Json>,
    /// The claim `metadata_policy_crit`.
    pub policy_crit: Option<Json>,
    pub constraints: Option<Json>,
}

/// What lists of subordinates are filtered by (OpenID Federation 1.0 section 8.2.1).
#[derive(Drop)]
pub struct Listing {
    /// The entity types.
    pub types: Seq<Text>,
    /// The types of its trust marks.
    pub mark_types: Seq<Text>,
    /// Whether it has subordinates of its own.
    pub intermediate: bool,
}

impl HasId for SubordinateConfig {
    ghost id_of = { λ s. s.id };

    fn id(&self) -> &EntityId {
        &self.id
    }
}

/// A list of at most 10,000 subordinates, all different, and none the node itself.
#[tactic(auto, unfolding(crate::specs::Subordinates::subordinates_of))]
pub(crate) fn read_subordinates(
    alloc: Global,
    node: &EntityId,
    tree: &Json,
) -> Result<Seq<SubordinateConfig>, FormFault>
    requires { IsWellFormed tree.now }
    ensures list { ReadsBy (map told_subordinate) result (subordinates_of node.now tree.now) }
    ensures stated { IfOk result (AllByRecursion IsSubordinate) }
{
    let Json::List(items) = tree else {
        return Err(FormFault::Shape);
    };
    let list = each_subordinate(alloc, items.as_slice())?;
    if are_subordinates(alloc, node, list.as_slice())? {
        Ok(list)
    } else {
        Err(FormFault::Shape)
    }
}

#[tactic(auto, using(crate::proofs::Lists::subordinates_are))]
fn are_subordinates(
    alloc: Global,
    node: &EntityId,
    list: &[SubordinateConfig],
) -> Result<bool, Memory>
    ensures { IfOk result (λ are. are ≡ are_subordinates node.now (map told_subordinate list.now)) }
{
    if are_below(node, list) {
        all_differ(alloc, list)
    } else {
        Ok(false)
    }
}

// Whether there are at most 10,000, and none is the node itself.
fn are_below(node: &EntityId, list: &[SubordinateConfig]) -> bool
    ensures { result ≡ (nat_le (length list.now) 10000 && not (list_any (λ s. bytes_eq node.now s.id) list.now)) }
{
    list.len() <= MOST_SUBORDINATES && !has_entity(list, node)
}

fn has_entity(list: &[SubordinateConfig], id: &EntityId) -> bool
    ensures { result ≡ list_any (λ s. bytes_eq id.now s.id) list.now }
{
    list.iter().any(|s| *id == s.id)
}

fn each_subordinate(alloc: Global, items: &[Json]) -> Result<Seq<SubordinateConfig>, FormFault>
    requires { IsTrue (list_all well_formed items.now) }
    ensures list { ReadsBy (map told_subordinate) result (each subordinate_of items.now) }
    ensures stated { IfOk result (AllByRecursion IsSubordinate) }
{
    let mut list = Seq::new(alloc);
    for item in items {
        list.push(read_subordinate(alloc, item)?)?;
    }
    Ok(list)
}

#[tactic(auto, unfolding(crate::specs::Subordinates::subordinate_of))]
fn read_subordinate(alloc: Global, tree: &Json) -> Result<SubordinateConfig, FormFault>
    requires { IsWellFormed tree.now }
    ensures subordinate { ReadsBy told_subordinate result (subordinate_of tree.now) }
    ensures stated { IfOk result IsSubordinate }
{
    match tree {
        Json::Object(members) => subordinate_in(alloc, members.as_slice()),
        _ => Err(FormFault::Shape),
    }
}

#[tactic(auto, unfolding(crate::specs::Subordinates::subordinate_in))]
fn subordinate_in(alloc: Global, members: &[Member]) -> Result<SubordinateConfig, FormFault>
    requires { IsTrue (members_well_formed members.now) }
    ensures subordinate { ReadsBy told_subordinate result (subordinate_in members.now) }
    ensures stated { IfOk result IsSubordinate }
{
    let entity = entity_in(alloc, members)?;
    let claims = match claims_about_in(alloc, members) {
        Ok(claims) => claims,
        Err(fault) => {
            drop(entity);
            return Err(fault);
        },
    };
    match listing_in(alloc, members) {
        Ok(listing) => Ok(SubordinateConfig {
            id: entity.id,
            jwks: entity.keys,
            claims,
            listing,
        }),
        Err(fault) => {
            drop(entity);
            drop(claims);
            Err(fault)
        },
    }
}

fn claims_about_in(alloc: Global, members: &[Member]) -> Result<ClaimsAbout, FormFault>
    requires { IsTrue (members_well_formed members.now) }
    ensures claims { Reads result (claims_about_in members.now) }
    ensures stated { IfOk result AreAbout }
{
    let mut claims = ClaimsAbout {
        metadata: None,
        policy: None,
        policy_crit: None,
        constraints: None,
    };
    match fill_in(alloc, members, &mut claims) {
        Ok(()) => Ok(claims),
        Err(fault) => {
            drop(claims);
            Err(fault)
        },
    }
}

// Puts each claim that the members set in its place.
#[tactic(auto, unfolding(crate::specs::Subordinates::claims_about_in))]
fn fill_in(alloc: Global, members: &[Member], claims: &mut ClaimsAbout) -> Result<(), FormFault>
    requires { IsTrue (members_well_formed members.now) }
    ensures claims { ReadsBy (λ _. claims.new) result (claims_about_in members.now) }
    ensures stated { OnOk result (AreAbout claims.new) }
{
    claim_in(alloc, members, Claim::Metadata, &mut claims.metadata)?;
    claim_in(alloc, members, Claim::MetadataPolicy, &mut claims.policy)?;
    claim_in(
        alloc,
        members,
        Claim::MetadataPolicyCrit,
        &mut claims.policy_crit,
    )?;
    claim_in(alloc, members, Claim::Constraints, &mut claims.constraints)
}

#[tactic(auto, unfolding(crate::specs::Subordinates::listing_in))]
fn listing_in(alloc: Global, members: &[Member]) -> Result<Listing, FormFault>
    ensures { Reads result (listing_in members.now) }
{
    let types = texts(alloc, members, b"entity_types")?;
    let mark_types = texts(alloc, members, b"mark_types")?;
    let intermediate = intermediate_in(members)?;
    Ok(Listing {
        types,
        mark_types,
        intermediate,
    })
}

// The member `intermediate`, true or false, and false where it is absent.
fn intermediate_in(members: &[Member]) -> Result<bool, FormFault>
    ensures { Reads result (option_map (λ o. unwrap_or o false) (possible (codes "intermediate") as_truth members.now)) }
{
    match find(members, b"intermediate") {
        None => Ok(false),
        Some(Json::Bool(intermediate)) => Ok(*intermediate),
        Some(_) => Err(FormFault::Shape),
    }
}
