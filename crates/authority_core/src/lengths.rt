// How much room the text of a tree leaves at least, told without writing it.

ghost use Rattle.std.specs.Prelude.{◌≤◌, ◌+◌, ◌∷◌, [], IfSome, codes, length};
ghost use Rattle.fed_json.specs.Compact.{compact, quoted};
ghost use Rattle.fed_json.specs.Members.{text_member};
ghost use Rattle.fed_json.specs.Reading.{member_of};
ghost use Rattle.jwk_set.specs.Trees.{key_tree, own_tree, set_tree};
ghost use Rattle.node_config.specs.Told.{told, told_subordinate};
ghost use Rattle.authority_core.specs.Issued.{claim, issue_members, last_moment, statement_claims};
ghost use Rattle.authority_core.specs.Lengths.{items_length, keys_length, member_text, members_length};

use fed_base::{Alg, Text};
use fed_json::{Json, Member, is_whole};
use jwk_set::{Jwk, JwkSet};
use node_config::{NodeConfig, SubordinateConfig};

// How many bytes a number from -2^63 to 2^64 - 1 has at most.
const NUMBER_BYTES: u64 = 21;

// How many bytes of a key of this project's algorithms stand beside its name at most.
const KEY_BYTES: u64 = 500;

// How many bytes of the claim `jwks` stand beside its keys at most.
const SET_BYTES: u64 = 64;

// How many bytes the members `exp` and `iat` have at most, each with a comma.
const TIMES_BYTES: u64 = 84;

/// What the claims of the statement about a subordinate leave at least of room for so many bytes, and `None` where they may not fit.
pub(crate) fn after_statement(room: u64, node: &NodeConfig, s: &SubordinateConfig) -> Option<u64>
    ensures { IfSome result (λ left. length (compact (statement_claims (told node.now) (told_subordinate s.now) last_moment)) + left ≤ room) }
{
    let inside = room.checked_sub(2)?;
    let left = after_claims_about(inside, s)?;
    let rest = after_issue(left, node, &s.jwks)?;
    after_named_text(rest, b"sub", s.id.text())
}

// The configured claims.
fn after_claims_about(room: u64, s: &SubordinateConfig) -> Option<u64>
    ensures { IfSome result (λ left. members_length (claim (codes "constraints") s.now.claims.constraints)
        + members_length (claim (codes "metadata") s.now.claims.metadata)
        + members_length (claim (codes "metadata_policy") s.now.claims.policy)
        + members_length (claim (codes "metadata_policy_crit") s.now.claims.policy_crit) + left ≤ room) }
{
    let first = after_claim(room, b"constraints", &s.claims.constraints)?;
    let second = after_claim(first, b"metadata", &s.claims.metadata)?;
    let third = after_claim(second, b"metadata_policy", &s.claims.policy)?;
    after_claim(third, b"metadata_policy_crit", &s.claims.policy_crit)
}

// What every statement says of its making.
fn after_issue(room: u64, node: &NodeConfig, keys: &JwkSet) -> Option<u64>
    ensures { IfSome result (λ left. members_length (issue_members (told node.now) keys.now.keys last_moment) + left ≤ room) }
{
    let left = room.checked_sub(TIMES_BYTES)?;
    let rest = after_named_text(left, b"iss", node.id.text())?;
    after_keys(rest, keys)
}

// A configured claim, where there is one.
fn after_claim(room: u64, name: &[u8], said: &Option<Json>) -> Option<u64>
    ensures { IfSome result (λ left. members_length (claim name.now said.now) + left ≤ room) }
{
    match said {
        Some(tree) => after_member(room, name, tree),
        None => Some(room),
    }
}

// A member that is a text, and its comma.
fn after_named_text(room: u64, name: &[u8], text: &[u8]) -> Option<u64>
    ensures { IfSome result (λ left. members_length (text_member name.now text.now ∷ []) + left ≤ room) }
{
    let left = after_text(room, name)?;
    let rest = after_text(left, text)?;
    rest.checked_sub(2)
}

// The claim `jwks`, and its comma.
fn after_keys(room: u64, keys: &JwkSet) -> Option<u64>
    ensures { IfSome result (λ left. members_length (member_of (codes "jwks") (set_tree keys.now.keys) ∷ []) + left ≤ room) }
{
    let left = room.checked_sub(SET_BYTES)?;
    each_key(left, keys.keys.as_slice())
}

fn each_key(room: u64, keys: &[Jwk]) -> Option<u64>
    ensures { IfSome result (λ left. keys_length keys.now + left ≤ room) }
{
    let mut left = room;
    for key in keys {
        left = after_key(left, key)?.checked_sub(1)?;
    }
    Some(left)
}

#[tactic(auto, unfolding(jwk_set::specs::Trees::key_tree))]
fn after_key(room: u64, key: &Jwk) -> Option<u64>
    ensures { IfSome result (λ left. length (compact (key_tree key.now)) + left ≤ room) }
{
    match key {
        Jwk::Own { kid, alg, public } => after_own_key(room, kid, *alg, public),
        Jwk::Foreign(tree) => after_tree(room, tree),
    }
}

fn after_own_key(room: u64, kid: &Text, alg: Alg, public: &[u8; 32]) -> Option<u64>
    ensures { IfSome result (λ left. length (compact (own_tree kid.now alg public.now)) + left ≤ room) }
{
    let left = room.checked_sub(KEY_BYTES)?;
    after_text(left, kid.as_slice())
}

// A text between quotation marks: of a byte an escape has six at most (RFC 8259 section 7).
fn after_text(room: u64, text: &[u8]) -> Option<u64>
    ensures { IfSome result (λ left. length (quoted text.now) + left ≤ room) }
{
    let most = (text.len() as u64).checked_mul(6)?.checked_add(2)?;
    room.checked_sub(most)
}

#[cycle(lengths)]
fn after_tree(room: u64, tree: &Json) -> Option<u64>
    ensures { IfSome result (λ left. length (compact tree.now) + left ≤ room) }
{
    match tree {
        Json::Null | Json::Bool(_) | Json::Odd => room.checked_sub(5),
        Json::Int(_) if is_whole(tree) => room.checked_sub(NUMBER_BYTES),
        Json::Int(_) => None,
        Json::Text(text) => after_text(room, text.as_slice()),
        Json::List(items) => after_items(room.checked_sub(2)?, items.as_slice()),
        Json::Object(members) => after_members(room.checked_sub(2)?, members.as_slice()),
    }
}

#[cycle(lengths)]
fn after_items(room: u64, items: &[Json]) -> Option<u64>
    ensures { IfSome result (λ left. items_length items.now + left ≤ room) }
{
    let mut left = room;
    for item in items {
        left = after_tree(left, item)?.checked_sub(1)?;
    }
    Some(left)
}

#[cycle(lengths)]
fn after_members(room: u64, members: &[Member]) -> Option<u64>
    ensures { IfSome result (λ left. members_length members.now + left ≤ room) }
{
    let mut left = room;
    for member in members {
        left = after_member(left, member.name.as_slice(), &member.value)?;
    }
    Some(left)
}

// A member, and its comma.
#[cycle(lengths)]
fn after_member(room: u64, name: &[u8], value: &Json) -> Option<u64>
    ensures { IfSome result (λ left. length (member_text name.now value.now) + 1 + left ≤ room) }
{
    let left = after_text(room, name)?;
    after_tree(left, value)?.checked_sub(2)
}
