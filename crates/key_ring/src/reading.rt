// Rings from the trees of their files.

ghost use Rattle.std.specs.Prelude.{◌≡◌, ◌<◌, ◌≤◌, ◌↔◌, IfOk, IfSome, IsTrue, MatchOption, Some, length};
ghost use Rattle.std.specs.List.{AllByRecursion};
ghost use Rattle.std.specs.Option.{option_copied};
ghost use Rattle.fed_base.specs.Moments.{moment_limit};
ghost use Rattle.fed_json.specs.Trees.{each};
ghost use Rattle.key_ring.specs.Files.{IsKeyIn, IsRingFile, IsRingTree, IsToldIn};
ghost use Rattle.key_ring.specs.Readings.{alg_at, if_ordered, key_in, key_of, keys_in, listed_in, moment_at, revocation_in, seeds_at, state_at, state_in, state_word, version_in};
ghost use Rattle.key_ring.specs.Rings.{IsRingKey, IsTimelyState, Ring, has_live, most_keys};

use crate::key::{KeyState, RevokeReason, RingKey, is_live_state};
use crate::version::Version;
use crate::writing::tree_of;
use fed_base::{Alg, MOMENT_LIMIT, Memory, Seq};
use fed_json::{Json, Member, TreeFault, count_below, find, json_equal, read_tree, text_at};
use hex::FromHex;
use jws_form::algorithm_of;
use std::alloc::Global;

// How many keys a ring has at most.
const MOST_KEYS: usize = 16;

/// The keys of a ring's file, or `None` where the bytes are no such file. Two of the keys may have one name.
pub(crate) fn read_keys(alloc: Global, file: &[u8]) -> Result<Option<Seq<RingKey>>, Memory>
    ensures { IfOk result (λ read. MatchOption read ((ring : Ring) → ¬ IsRingFile file.now ring) (IsRingFile file.now)) }
{
    match read_tree(alloc, file) {
        Ok(tree) => keys_of(alloc, &tree),
        Err(TreeFault::Syntax) => Ok(None),
        Err(TreeFault::Memory) => Err(Memory),
    }
}

// The keys of a ring's tree, or `None` where it is no such tree: the ring of the keys that are found in it is written again in the
// version that the tree says, and compared.
fn keys_of(alloc: Global, tree: &Json) -> Result<Option<Seq<RingKey>>, Memory>
    ensures { IfOk result (λ read. MatchOption read
        ((ring : Ring) → ¬ IsRingTree tree.now ring)
        (IsRingTree tree.now)) }
{
    let Some(version) = version_in(tree) else {
        return Ok(None);
    };
    match keys_in(alloc, version, tree)? {
        Some(keys) => compared(alloc, version, tree, keys),
        None => Ok(None),
    }
}

/// The version that an object says, or `None`.
#[tactic(auto, unfolding(crate::specs::Readings::version_in))]
pub fn version_in(tree: &Json) -> Option<Version>
    ensures { result ≡ version_in tree.now }
{
    let Json::Object(members) = tree else {
        return None;
    };
    match find(members.as_slice(), b"version") {
        Some(number) => match count_below(number, 3) {
            Some(1) => Some(Version::First),
            Some(2) => Some(Version::Second),
            _ => None,
        },
        None => None,
    }
}

// The keys that were found in the tree, where the ring of them has that tree.
fn compared(
    alloc: Global,
    version: Version,
    tree: &Json,
    keys: Seq<RingKey>,
) -> Result<Option<Seq<RingKey>>, Memory>
    requires version { version_in tree.now ≡ Some version }
    requires found { keys_in version tree.now ≡ Some keys }
    requires formed { AllByRecursion (IsKeyIn version) keys }
    ensures { IfOk result (λ read. MatchOption read
        ((ring : Ring) → ¬ IsRingTree tree.now ring)
        (IsRingTree tree.now)) }
{
    if !is_ring_size(keys.as_slice()) {
        return Ok(None);
    }
    let written = tree_of(alloc, version, keys.as_slice())?;
    if json_equal(tree, &written) {
        Ok(Some(keys))
    } else {
        Ok(None)
    }
}

// Whether there are at most 16 keys, of which one is live.
fn is_ring_size(keys: &[RingKey]) -> bool
    ensures { IsTrue result ↔ (IsTrue (has_live keys.now) × (length keys.now ≤ most_keys)) }
{
    has_live(keys) && keys.len() <= MOST_KEYS
}

// Whether one of the keys is live.
fn has_live(keys: &[RingKey]) -> bool
    ensures { result ≡ has_live keys.now }
{
    keys.iter().any(|key| is_live_state(key.state))
}

// The keys that the tree has, whatever else stands in it.
#[tactic(auto, unfolding(crate::specs::Readings::keys_in))]
fn keys_in(alloc: Global, version: Version, tree: &Json) -> Result<Option<Seq<RingKey>>, Memory>
    ensures keys { IfOk result (λ keys. keys ≡ keys_in version tree.now) }
    ensures formed { IfOk result (λ keys. IfSome keys (AllByRecursion (IsKeyIn version))) }
{
    match listed_in(tree) {
        Some(items) => each_key(alloc, version, items),
        None => Ok(None),
    }
}

// The list `keys` of an object.
#[tactic(auto, unfolding(crate::specs::Readings::listed_in))]
fn listed_in(tree: &Json) -> Option<&[Json]>
    ensures { option_copied result ≡ listed_in tree.now }
{
    let Json::Object(members) = tree else {
        return None;
    };
    match find(members.as_slice(), b"keys") {
        Some(Json::List(keys)) => Some(keys.as_slice()),
        _ => None,
    }
}

// The keys that the items are, and `None` where one is none.
fn each_key(alloc: Global, version: Version, items: &[Json]) -> Result<Option<Seq<RingKey>>, Memory>
    ensures keys { IfOk result (λ keys. keys ≡ each (key_in version) items.now) }
    ensures formed { IfOk result (λ keys. IfSome keys (AllByRecursion (IsKeyIn version))) }
{
    let mut keys = Seq::new(alloc);
    for item in items {
        match key_in(version, item) {
            Some(key) => keys.push(key)?,
            None => return Ok(None),
        }
    }
    Ok(Some(keys))
}

// The key that an item is, whatever else stands in it.
#[tactic(auto, unfolding(crate::specs::Readings::key_in))]
fn key_in(version: Version, tree: &Json) -> Option<RingKey>
    ensures key { result ≡ key_in version tree.now }
    ensures formed { IfSome result (IsKeyIn version) }
{
    match tree {
        Json::Object(members) => key_of(version, members.as_slice()),
        _ => None,
    }
}

#[tactic(auto, unfolding(crate::specs::Readings::key_of))]
fn key_of(version: Version, members: &[Member]) -> Option<RingKey>
    ensures key { result ≡ key_of version members.now }
    ensures formed { IfSome result (IsKeyIn version) }
{
    let Some(alg) = alg_at(version, members) else {
        return None;
    };
    let (Some(seeds), Some(state)) = (seeds_at(members), state_at(members)) else {
        return None;
    };
    let (Some(iat), Some(exp)) = (moment_at(members, b"iat"), moment_at(members, b"exp")) else {
        return None;
    };
    if_ordered(RingKey {
        alg,
        seeds,
        iat,
        exp,
        state,
    })
}

// The key, where it ends after it begins.
fn if_ordered(key: RingKey) -> Option<RingKey>
    requires small { key.exp < moment_limit }
    requires state { IsTimelyState key.state }
    ensures key { result ≡ if_ordered key }
    ensures formed { IfSome result IsRingKey }
    ensures same { IfSome result (λ found. found.alg ≡ key.alg) }
{
    if key.iat < key.exp { Some(key) } else { None }
}

/// The algorithm of a key's members in a file of that version: in version 1 none is named, and it is that of the first parameter set.
#[tactic(auto, unfolding(crate::specs::Readings::alg_at))]
pub fn alg_at(version: Version, members: &[Member]) -> Option<Alg>
    ensures alg { result ≡ alg_at version members.now }
    ensures told { IfSome result (IsToldIn version) }
{
    match version {
        Version::First => Some(Alg::Small),
        Version::Second => {
            text_at(members, b"alg").and_then(|name| algorithm_of(name.as_slice()))
        }
    }
}

fn seeds_at(members: &[Member]) -> Option<[u8; 48]>
    ensures { result ≡ seeds_at members.now }
{
    match text_at(members, b"seeds") {
        Some(text) => <[u8; 48]>::from_hex(text.as_slice()).ok(),
        None => None,
    }
}

/// The moment under that name in the members of an object, in seconds since 1970 and below 2^62.
pub fn moment_at(members: &[Member], name: &[u8]) -> Option<u64>
    ensures moment { result ≡ moment_at name.now members.now }
    ensures small { IfSome result (λ moment. moment < moment_limit) }
{
    match find(members, name) {
        Some(tree) => count_below(tree, MOMENT_LIMIT),
        None => None,
    }
}

fn state_at(members: &[Member]) -> Option<KeyState>
    ensures state { result ≡ state_at members.now }
    ensures timely { IfSome result IsTimelyState }
{
    match find(members, b"state") {
        Some(tree) => state_in(tree),
        None => None,
    }
}

#[tactic(auto, unfolding(crate::specs::Readings::state_in))]
fn state_in(tree: &Json) -> Option<KeyState>
    ensures state { result ≡ state_in tree.now }
    ensures timely { IfSome result IsTimelyState }
{
    match tree {
        Json::Text(word) => state_word(word.as_slice()),
        Json::Object(members) => revocation_in(members.as_slice()),
        _ => None,
    }
}

fn state_word(word: &[u8]) -> Option<KeyState>
    ensures state { result ≡ state_word word.now }
    ensures timely { IfSome result IsTimelyState }
{
    if word == b"live".as_slice() {
        Some(KeyState::Live)
    } else if word == b"retired".as_slice() {
        Some(KeyState::Retired)
    } else {
        None
    }
}

fn revocation_in(members: &[Member]) -> Option<KeyState>
    ensures state { result ≡ revocation_in members.now }
    ensures timely { IfSome result IsTimelyState }
{
    let (Some(at), Some(word)) = (
        moment_at(members, b"revoked_at"),
        text_at(members, b"reason"),
    ) else {
        return None;
    };
    match RevokeReason::of_word(word.as_slice()) {
        Some(reason) => Some(KeyState::Revoked { at, reason }),
        None => None,
    }
}
