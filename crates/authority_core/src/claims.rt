// The claims that a node states.

ghost use Rattle.std.specs.Prelude.{◌≡◌, ◌≢◌, ◌<◌, ◌++◌, ◌∷◌, [], codes, IfOk, OnOk};
ghost use Rattle.std.specs.Str.{IsUtf8};
ghost use Rattle.fed_base.specs.Moments.{moment_limit};
ghost use Rattle.fed_json.specs.Forms.{IsWhole};
ghost use Rattle.entity_id.specs.Identifiers.{IsIdentifier};
ghost use Rattle.fed_json.specs.Reading.{member_of};
ghost use Rattle.fed_json.specs.Metadata.{IsMetadata};
ghost use Rattle.fed_json.specs.Members.{number_member as number_in};
ghost use Rattle.jwk_set.specs.KeySets.{IsKeySet};
ghost use Rattle.jwk_set.specs.Trees.{set_tree};
ghost use Rattle.sealed.specs.Sealing.{IsObject};
ghost use Rattle.node_config.specs.Stated.{AreAbout, AreOwn};
ghost use Rattle.node_config.specs.Told.{told, told_subordinate};
ghost use Rattle.authority_core.specs.Endpoints.{own_metadata as metadata_of};
ghost use Rattle.authority_core.specs.Issued.{claim, configuration_claims, configuration_members, end_of, historical_tree, statement_claims, statement_members};
ghost use Rattle.authority_core.specs.Nodes.{node_of};
ghost use Rattle.authority_core.specs.ReadBack.{ReadsAs, claims_about, own_claims};
ghost use Rattle.authority_core.specs.Stages.{AreSound, historical_members, making_members, stamp_members};
ghost use Rattle.trust_mark.specs.Statuses.{answer_of, status_tree};
ghost use Rattle.key_ring.specs.Sets.{IsNamedIn, live_set, signer_keys};

use crate::metadata::own_metadata;
use fed_base::{Duplicate, MOMENT_LIMIT, Memory, Seq, Text};
use fed_json::{Json, Member, text_member};
use jwk_set::JwkSet;
use key_ring::KeyRing;
use node_config::{NodeConfig, SubordinateConfig};
use std::alloc::Global;
use trust_mark::{MarkStatus, StatusAnswer};

/// When a statement ends that is made at the moment.
pub(crate) fn end_of(lifetime: u64, t: u64) -> u64
    ensures { result ≡ end_of lifetime t }
{
    t.saturating_add(lifetime).min(MOMENT_LIMIT - 1)
}

// Adds a member of that name.
fn push_tree(
    alloc: Global,
    members: &mut Seq<Member>,
    name: &[u8],
    value: Json,
) -> Result<(), Memory>
    ensures { OnOk result (members.new ≡ members.old ++ member_of name.now value ∷ []) }
{
    let name = Text::of(alloc, name)?;
    members.push(Member { name, value })
}

// Adds a member of that name that is a number.
fn push_number(
    alloc: Global,
    members: &mut Seq<Member>,
    name: &[u8],
    number: u64,
) -> Result<(), Memory>
    ensures { OnOk result (members.new ≡ members.old ++ number_in name.now number ∷ []) }
{
    push_tree(alloc, members, name, Json::Int(number as i128))
}

// Adds a configured claim, where there is one.
fn push_claim(
    alloc: Global,
    members: &mut Seq<Member>,
    name: &[u8],
    said: &Option<Json>,
) -> Result<(), Memory>
    ensures { OnOk result (members.new ≡ members.old ++ claim name.now said.now) }
{
    match said {
        Some(tree) => push_tree(alloc, members, name, tree.copy(alloc)?),
        None => Ok(()),
    }
}

// Adds when claims are made, and by whom.
fn push_stamp(
    alloc: Global,
    members: &mut Seq<Member>,
    node: &NodeConfig,
    t: u64,
) -> Result<(), Memory>
    ensures issuer { OnOk result (IsUtf8 node.now.id) }
    ensures identifier { OnOk result (IsIdentifier node.now.id) }
    ensures members { OnOk result (members.new ≡ members.old ++ stamp_members node.now.id t) }
{
    push_number(alloc, members, b"iat", t)?;
    members.push(text_member(alloc, b"iss", node.id.text())?)
}

// Adds when a statement ends, when it is made, and by whom.
fn push_making(
    alloc: Global,
    members: &mut Seq<Member>,
    node: &NodeConfig,
    t: u64,
) -> Result<(), Memory>
    ensures issuer { OnOk result (IsUtf8 node.now.id) }
    ensures identifier { OnOk result (IsIdentifier node.now.id) }
    ensures members { OnOk result (members.new ≡ members.old ++ making_members (told node.now) t) }
{
    push_number(alloc, members, b"exp", end_of(node.lifetime, t))?;
    push_stamp(alloc, members, node, t)
}

// Adds the keys of a set.
fn push_keys(alloc: Global, members: &mut Seq<Member>, set: &JwkSet) -> Result<(), Memory>
    ensures members { OnOk result (members.new ≡ members.old ++ member_of (codes "jwks") (set_tree set.now.keys) ∷ []) }
    ensures whole { OnOk result (IsWhole (set_tree set.now.keys)) }
    ensures reads_back { OnOk result (IsKeySet (set_tree set.now.keys) set.now.keys) }
{
    let keys = set.write(alloc)?;
    push_tree(alloc, members, b"jwks", keys)
}

/// The claims of the statement about a subordinate.
pub(crate) fn statement_claims(
    alloc: Global,
    node: &NodeConfig,
    s: &SubordinateConfig,
    t: u64,
) -> Result<Json, Memory>
    requires { AreAbout s.now.claims }
    ensures tree { IfOk result (λ tree. tree ≡ statement_claims (told node.now) (told_subordinate s.now) t) }
    ensures whole { IfOk result IsWhole }
    ensures object { IfOk result IsObject }
    ensures reads_back { IfOk result (λ tree. t < moment_limit → node.now.id ≢ s.now.id
        → ReadsAs tree (claims_about (told node.now) (told_subordinate s.now) t)) }
{
    let mut members = Seq::new(alloc);
    push_statement(alloc, &mut members, node, s, t)?;
    Ok(Json::Object(members))
}

// Adds the claims of the statement about a subordinate.
fn push_statement(
    alloc: Global,
    members: &mut Seq<Member>,
    node: &NodeConfig,
    s: &SubordinateConfig,
    t: u64,
) -> Result<(), Memory>
    ensures members { OnOk result (members.new ≡ members.old ++ statement_members (told node.now) (told_subordinate s.now) t) }
    ensures sound { OnOk result (AreSound node.now.id s.now.id s.now.jwks.keys) }
{
    push_claim(alloc, members, b"constraints", &s.claims.constraints)?;
    push_making(alloc, members, node, t)?;
    push_keys(alloc, members, &s.jwks)?;
    push_claim(alloc, members, b"metadata", &s.claims.metadata)?;
    push_claim(alloc, members, b"metadata_policy", &s.claims.policy)?;
    push_claim(
        alloc,
        members,
        b"metadata_policy_crit",
        &s.claims.policy_crit,
    )?;
    members.push(text_member(alloc, b"sub", s.id.text())?)?;
    Ok(())
}

/// The claims of the node's configuration.
pub(crate) fn configuration_claims(
    alloc: Global,
    node: &NodeConfig,
    ring: &KeyRing,
    t: u64,
) -> Result<Json, Memory>
    requires { AreOwn node.now.claims }
    ensures tree { IfOk result (λ tree. tree ≡ configuration_claims (node_of node.now ring.now) t) }
    ensures whole { IfOk result IsWhole }
    ensures object { IfOk result IsObject }
    ensures reads_back { IfOk result (λ tree. t < moment_limit → ReadsAs tree (own_claims (told node.now) (live_set ring.now) t)) }
    ensures signer { IfOk result (λ _. IsNamedIn (signer_keys ring.now) (live_set ring.now)) }
{
    let keys = ring.live_set(alloc)?;
    let mut members = Seq::new(alloc);
    push_configuration(alloc, &mut members, node, &keys, t)?;
    Ok(Json::Object(members))
}

// Adds the claims of the node's configuration, under the keys of that set.
fn push_configuration(
    alloc: Global,
    members: &mut Seq<Member>,
    node: &NodeConfig,
    set: &JwkSet,
    t: u64,
) -> Result<(), Memory>
    requires { AreOwn node.now.claims }
    ensures members { OnOk result (members.new ≡ members.old ++ configuration_members (told node.now) set.now.keys t) }
    ensures sound { OnOk result (AreSound node.now.id node.now.id set.now.keys) }
    ensures metadata { OnOk result (IsMetadata (metadata_of (told node.now))) }
{
    push_claim(alloc, members, b"authority_hints", &node.claims.hints)?;
    push_making(alloc, members, node, t)?;
    push_keys(alloc, members, set)?;
    push_tree(alloc, members, b"metadata", own_metadata(alloc, node)?)?;
    members.push(text_member(alloc, b"sub", node.id.text())?)?;
    push_claim(alloc, members, b"trust_mark_issuers", &node.claims.issuers)?;
    push_claim(alloc, members, b"trust_mark_owners", &node.claims.owners)?;
    push_claim(alloc, members, b"trust_marks", &node.claims.marks)?;
    Ok(())
}

/// The claims of a set of historical keys.
pub(crate) fn historical_claims(
    alloc: Global,
    node: &NodeConfig,
    keys: Json,
    t: u64,
) -> Result<Json, Memory>
    requires { IsWhole keys }
    ensures tree { IfOk result (λ tree. tree ≡ historical_tree node.now.id keys t) }
    ensures whole { IfOk result IsWhole }
    ensures object { IfOk result IsObject }
{
    let mut members = Seq::new(alloc);
    push_historical(alloc, &mut members, node, keys, t)?;
    Ok(Json::Object(members))
}

// Adds the claims of a set of historical keys.
fn push_historical(
    alloc: Global,
    members: &mut Seq<Member>,
    node: &NodeConfig,
    keys: Json,
    t: u64,
) -> Result<(), Memory>
    ensures issuer { OnOk result (IsUtf8 node.now.id) }
    ensures members { OnOk result (members.new ≡ members.old ++ historical_members node.now.id keys t) }
{
    push_stamp(alloc, members, node, t)?;
    push_tree(alloc, members, b"keys", keys)
}

/// The claims of an answer on a mark's status.
pub(crate) fn status_claims(
    alloc: Global,
    node: &NodeConfig,
    t: u64,
    mark: &Text,
    status: MarkStatus,
) -> Result<Json, Memory>
    requires { IsUtf8 mark.now }
    ensures tree { IfOk result (λ tree. tree ≡ status_tree (answer_of node.now.id t mark.now status)) }
    ensures whole { IfOk result IsWhole }
    ensures object { IfOk result IsObject }
{
    let iss = node.id.copy(alloc)?;
    let trust_mark = mark.copy(alloc)?;
    let answer = StatusAnswer {
        iss,
        iat: t,
        trust_mark,
        status,
    };
    answer.write(alloc)
}
