// Rings as the trees and texts of their files.

ghost use Rattle.std.specs.Prelude.{◌≡◌, ◌≤◌, ◌++◌, ◌∷◌, [], IfOk, OnOk, codes, map};
ghost use Rattle.hex.specs.Hex.{encode_lower};
ghost use Rattle.fed_json.specs.declared.tree.Json.{Object};
ghost use Rattle.fed_json.specs.Forms.{IsWhole, nesting};
ghost use Rattle.fed_json.specs.Members.{number_member, text_member};
ghost use Rattle.fed_json.specs.Reading.{member_of};
ghost use Rattle.key_ring.specs.Files.{IsWritten, alg_members, key_tree, revocation_tree, ring_text, state_tree, tree_of};
ghost use Rattle.key_ring.specs.Rings.{HasForm, IsRing};

use crate::key::{KeyState, RevokeReason, RingKey};
use crate::version::Version;
use fed_base::{Alg, Memory, Seq, Text};
use fed_json::{Json, Member, text_member, write_tree};
use jws_form::algorithm_name;
use std::alloc::Global;

/// The text of the file of a ring of these keys, of version 2. It opens as the ring.
pub(crate) fn ring_text(alloc: Global, keys: &[RingKey]) -> Result<Text, Memory>
    requires { IsRing keys.now }
    ensures text { IfOk result (λ text. text ≡ ring_text keys.now) }
    ensures written { IfOk result (λ text. IsWritten text keys.now) }
{
    let tree = tree_of(alloc, Version::Second, keys)?;
    let text = write_tree(alloc, &tree)?;
    Ok(text)
}

/// The tree of a ring of these keys in that version.
#[tactic(auto, unfolding(crate::specs::Files::tree_of))]
pub(crate) fn tree_of(alloc: Global, version: Version, keys: &[RingKey]) -> Result<Json, Memory>
    requires { HasForm keys.now }
    ensures tree { IfOk result (λ tree. tree ≡ tree_of version keys.now) }
    ensures whole { IfOk result IsWhole }
    ensures shallow { IfOk result (λ tree. nesting tree ≤ 127) }
{
    let keys = key_trees(alloc, version, keys)?;
    let mut members = Seq::new(alloc);
    add_tree(alloc, &mut members, b"keys", Json::List(keys))?;
    add_number(alloc, &mut members, b"version", version.number())?;
    Ok(Json::Object(members))
}

// The trees of the keys.
fn key_trees(alloc: Global, version: Version, keys: &[RingKey]) -> Result<Seq<Json>, Memory>
    ensures { IfOk result (λ trees. trees ≡ map (key_tree version) keys.now) }
{
    let mut trees = Seq::new(alloc);
    for key in keys {
        trees.push(key_tree(alloc, version, key)?)?;
    }
    Ok(trees)
}

fn key_tree(alloc: Global, version: Version, key: &RingKey) -> Result<Json, Memory>
    ensures { IfOk result (λ tree. tree ≡ key_tree version key.now) }
{
    let mut members = Seq::new(alloc);
    add_key(alloc, &mut members, version, key)?;
    Ok(Json::Object(members))
}

// Fills the object of a key.
fn add_key(
    alloc: Global,
    members: &mut Seq<Member>,
    version: Version,
    key: &RingKey,
) -> Result<(), Memory>
    ensures { members.old ≡ [] → OnOk result (Object members.new ≡ key_tree version key.now) }
{
    add_alg(alloc, members, version, key.alg)?;
    add_number(alloc, members, b"exp", key.exp)?;
    add_number(alloc, members, b"iat", key.iat)?;
    add_seeds(alloc, members, &key.seeds)?;
    add_tree(alloc, members, b"state", state_tree(alloc, key.state)?)
}

// The name of the algorithm, which version 2 has.
fn add_alg(
    alloc: Global,
    members: &mut Seq<Member>,
    version: Version,
    alg: Alg,
) -> Result<(), Memory>
    ensures { OnOk result (members.new ≡ members.old ++ alg_members version alg) }
{
    match version {
        Version::First => Ok(()),
        Version::Second => add_text(alloc, members, b"alg", algorithm_name(alg)),
    }
}

fn add_seeds(alloc: Global, members: &mut Seq<Member>, seeds: &[u8; 48]) -> Result<(), Memory>
    ensures { OnOk result (members.new ≡ members.old ++ text_member (codes "seeds") (encode_lower seeds.now) ∷ []) }
{
    let seeds = hex::encode(alloc, seeds.as_slice())?;
    add_text(alloc, members, b"seeds", seeds.as_bytes())
}

fn state_tree(alloc: Global, state: KeyState) -> Result<Json, Memory>
    ensures { IfOk result (λ tree. tree ≡ state_tree state) }
{
    match state {
        KeyState::Live => Ok(Json::Text(Text::of(alloc, b"live")?)),
        KeyState::Retired => Ok(Json::Text(Text::of(alloc, b"retired")?)),
        KeyState::Revoked { at, reason } => revocation_tree(alloc, at, reason),
    }
}

/// When and why a key was revoked.
pub(crate) fn revocation_tree(alloc: Global, at: u64, reason: RevokeReason) -> Result<Json, Memory>
    ensures { IfOk result (λ tree. tree ≡ revocation_tree at reason) }
{
    let mut members = Seq::new(alloc);
    add_text(alloc, &mut members, b"reason", reason.word())?;
    add_number(alloc, &mut members, b"revoked_at", at)?;
    Ok(Json::Object(members))
}

/// Adds a member of that name that is a text.
pub(crate) fn add_text(
    alloc: Global,
    members: &mut Seq<Member>,
    name: &[u8],
    text: &[u8],
) -> Result<(), Memory>
    ensures { OnOk result (members.new ≡ members.old ++ text_member name.now text.now ∷ []) }
{
    members.push(text_member(alloc, name, text)?)
}

/// Adds a member of that name that is a number.
pub(crate) fn add_number(
    alloc: Global,
    members: &mut Seq<Member>,
    name: &[u8],
    number: u64,
) -> Result<(), Memory>
    ensures { OnOk result (members.new ≡ members.old ++ number_member name.now number ∷ []) }
{
    add_tree(alloc, members, name, Json::Int(number as i128))
}

/// Adds a member of that name and value.
pub(crate) fn add_tree(
    alloc: Global,
    members: &mut Seq<Member>,
    name: &[u8],
    value: Json,
) -> Result<(), Memory>
    ensures { OnOk result (members.new ≡ members.old ++ member_of name.now value ∷ []) }
{
    let name = Text::of(alloc, name)?;
    members.push(Member { name, value })
}
