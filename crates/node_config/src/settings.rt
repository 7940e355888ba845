// The members of a configuration, one by one.

ghost use Rattle.std.specs.Prelude.{◌≡◌, IfOk, IsTrue, OnOk, codes, map, option_map};
ghost use Rattle.std.specs.List.{AllByRecursion};
ghost use Rattle.fed_json.specs.Forms.{members_well_formed};
ghost use Rattle.fed_json.specs.Trees.{as_text, texts_of};
ghost use Rattle.entity_statement.specs.Forms.{identifier as identifier_of};
ghost use Rattle.node_config.specs.Answers.{Gives, GivesBy, ReadsBy};
ghost use Rattle.node_config.specs.Configurations.{basics_in, further_in, member as member_or_name, own_claims_in};
ghost use Rattle.node_config.specs.Forms.{needed, number_within, possible, possible_list};
ghost use Rattle.node_config.specs.Resolvers.{resolver_of};
ghost use Rattle.node_config.specs.Subordinates.{subordinates_of};
ghost use Rattle.node_config.specs.Stated.{AreOwn, IsSubordinate};
ghost use Rattle.node_config.specs.Told.{told_further, told_resolver, told_subordinate};

use crate::claims::{Claim, own_claim};
use crate::entities::identifier_at;
use crate::fault::{ConfigFault, FormFault};
use crate::members::{member, number, text_of, texts};
use crate::resolver::{ResolverConfig, read_resolver};
use crate::subordinates::{SubordinateConfig, read_subordinates};
use entity_id::EntityId;
use fed_base::{Duplicate, Memory, Seq, Text};
use fed_json::{Json, Member, find};
use std::alloc::Global;

/// What a node is.
#[derive(Drop)]
pub(crate) struct Basics {
    pub(crate) id: EntityId,
    pub(crate) ring: Text,
    pub(crate) lifetime: u64,
}

/// What stands behind the claims.
#[derive(Drop)]
pub(crate) struct FurtherConfig {
    pub(crate) subordinates: Seq<SubordinateConfig>,
    pub(crate) revoked: Seq<Text>,
    pub(crate) resolver: Option<ResolverConfig>,
}

/// What the node's entity configuration claims beside its keys, as it is configured (OpenID Federation 1.0 sections 3.1.1 and 3.1.2).
#[derive(Drop)]
pub struct OwnClaims {
    pub metadata: Option<Json>,
    /// The claim `authority_hints`.
    pub hints: Option<Json>,
    /// The claim `trust_marks`.
    pub marks: Option<Json>,
    /// The claim `trust_mark_issuers`.
    pub issuers: Option<Json>,
    /// The claim `trust_mark_owners`.
    pub owners: Option<Json>,
}

/// The first three members.
#[tactic(auto, unfolding(crate::specs::Configurations::basics_in))]
pub(crate) fn basics_in(alloc: Global, members: &[Member]) -> Result<Basics, ConfigFault>
    ensures { Gives result (basics_in members.now) }
{
    let id = id_in(alloc, members)?;
    let ring = ring_in(alloc, members)?;
    let lifetime = lifetime_in(alloc, members)?;
    Ok(Basics { id, ring, lifetime })
}

/// The last three members, for a node of that identifier.
#[tactic(auto, unfolding(crate::specs::Configurations::further_in))]
pub(crate) fn further_in(
    alloc: Global,
    members: &[Member],
    node: &EntityId,
) -> Result<FurtherConfig, ConfigFault>
    requires { IsTrue (members_well_formed members.now) }
    ensures further { GivesBy told_further result (further_in node.now members.now) }
    ensures stated { IfOk result (λ further. AllByRecursion IsSubordinate further.subordinates) }
{
    let subordinates = subordinates_in(alloc, members, node)?;
    let revoked = revoked_in(alloc, members)?;
    let resolver = resolver_in(alloc, members)?;
    Ok(FurtherConfig {
        subordinates,
        revoked,
        resolver,
    })
}

// The member `entity_id`: what the node is called.
fn id_in(alloc: Global, members: &[Member]) -> Result<EntityId, ConfigFault>
    ensures { Gives result (member_or_name (codes "entity_id") (needed (codes "entity_id") identifier_of members.now)) }
{
    member(
        alloc,
        b"entity_id",
        identifier_at(alloc, members, b"entity_id"),
    )
}

// The member `ring`: the name of the file of its keys.
fn ring_in(alloc: Global, members: &[Member]) -> Result<Text, ConfigFault>
    ensures { Gives result (member_or_name (codes "ring") (needed (codes "ring") as_text members.now)) }
{
    member(alloc, b"ring", text_of(alloc, members, b"ring"))
}

// The member `lifetime`: for how many seconds its statements hold.
fn lifetime_in(alloc: Global, members: &[Member]) -> Result<u64, ConfigFault>
    ensures { Gives result (member_or_name (codes "lifetime") (needed (codes "lifetime") (number_within 60 31536000) members.now)) }
{
    member(
        alloc,
        b"lifetime",
        number(members, b"lifetime", 60, 31_536_000),
    )
}

/// The claims of its own configuration.
pub(crate) fn own_claims_in(alloc: Global, members: &[Member]) -> Result<OwnClaims, ConfigFault>
    requires { IsTrue (members_well_formed members.now) }
    ensures claims { Gives result (own_claims_in members.now) }
    ensures stated { IfOk result AreOwn }
{
    let mut claims = OwnClaims {
        metadata: None,
        hints: None,
        marks: None,
        issuers: None,
        owners: None,
    };
    match fill_in(alloc, members, &mut claims) {
        Ok(()) => Ok(claims),
        Err(fault) => {
            drop(claims);
            Err(fault)
        },
    }
}

// Puts each claim that the members set in its place.
#[tactic(auto, unfolding(crate::specs::Configurations::own_claims_in))]
fn fill_in(alloc: Global, members: &[Member], claims: &mut OwnClaims) -> Result<(), ConfigFault>
    requires { IsTrue (members_well_formed members.now) }
    ensures claims { GivesBy (λ _. claims.new) result (own_claims_in members.now) }
    ensures stated { OnOk result (AreOwn claims.new) }
{
    own_claim(alloc, members, Claim::Metadata, &mut claims.metadata)?;
    own_claim(alloc, members, Claim::AuthorityHints, &mut claims.hints)?;
    own_claim(alloc, members, Claim::TrustMarks, &mut claims.marks)?;
    own_claim(alloc, members, Claim::TrustMarkIssuers, &mut claims.issuers)?;
    own_claim(alloc, members, Claim::TrustMarkOwners, &mut claims.owners)
}

// The member `subordinates`.
fn subordinates_in(
    alloc: Global,
    members: &[Member],
    node: &EntityId,
) -> Result<Seq<SubordinateConfig>, ConfigFault>
    requires { IsTrue (members_well_formed members.now) }
    ensures list { GivesBy (map told_subordinate) result (member_or_name (codes "subordinates") (possible_list (codes "subordinates") (subordinates_of node.now) members.now)) }
    ensures stated { IfOk result (AllByRecursion IsSubordinate) }
{
    member(
        alloc,
        b"subordinates",
        subordinates_at(alloc, members, node),
    )
}

fn subordinates_at(
    alloc: Global,
    members: &[Member],
    node: &EntityId,
) -> Result<Seq<SubordinateConfig>, FormFault>
    requires { IsTrue (members_well_formed members.now) }
    ensures list { ReadsBy (map told_subordinate) result (possible_list (codes "subordinates") (subordinates_of node.now) members.now) }
    ensures stated { IfOk result (AllByRecursion IsSubordinate) }
{
    match find(members, b"subordinates") {
        Some(tree) => read_subordinates(alloc, node, tree),
        None => Ok(Seq::new(alloc)),
    }
}

// The member `revoked_marks`: the texts of trust marks that the node revoked.
fn revoked_in(alloc: Global, members: &[Member]) -> Result<Seq<Text>, ConfigFault>
    ensures { Gives result (member_or_name (codes "revoked_marks") (possible_list (codes "revoked_marks") texts_of members.now)) }
{
    member(
        alloc,
        b"revoked_marks",
        texts(alloc, members, b"revoked_marks"),
    )
}

// The member `resolver`.
fn resolver_in(alloc: Global, members: &[Member]) -> Result<Option<ResolverConfig>, ConfigFault>
    requires { IsTrue (members_well_formed members.now) }
    ensures { GivesBy (option_map told_resolver) result (member_or_name (codes "resolver") (possible (codes "resolver") resolver_of members.now)) }
{
    member(alloc, b"resolver", resolver_at(alloc, members))
}

fn resolver_at(alloc: Global, members: &[Member]) -> Result<Option<ResolverConfig>, FormFault>
    requires { IsTrue (members_well_formed members.now) }
    ensures { ReadsBy (option_map told_resolver) result (possible (codes "resolver") resolver_of members.now) }
{
    match find(members, b"resolver") {
        Some(tree) => Ok(Some(read_resolver(alloc, tree)?)),
        None => Ok(None),
    }
}
