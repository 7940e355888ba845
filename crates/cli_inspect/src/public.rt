// The public keys of a ring.

ghost use Rattle.std.specs.Prelude.{◌≡◌, ◌≤◌, IfOk, IfSome, IsTrue, Some, find, option_map};
ghost use Rattle.std.specs.List.{list_all};
ghost use Rattle.std.specs.Option.{option_copied};
ghost use Rattle.cli_commands.specs.Checks.{keys_in};
ghost use Rattle.fed_json.specs.Compact.{compact};
ghost use Rattle.fed_json.specs.Forms.{IsWhole, whole};
ghost use Rattle.fed_json.specs.Trees.{as_list};
ghost use Rattle.jwk_set.specs.Keys.{is_key};
ghost use Rattle.jwk_set.specs.Trees.{key_tree, set_tree};
ghost use Rattle.key_ring.specs.Sets.{live_set};
ghost use Rattle.cli_inspect.specs.Publics.{is_called, is_named, named_reply, past_reply, public_reply};

use crate::replies::{on_line, refused};
use cli_rings::Reply;
use fed_json::{Json, object_members, text_at, write_tree};
use fed_ports::{Memory, Text};
use jwk_set::{Jwk, write_key};
use key_ring::KeyRing;
use plain_notes::{Notes, Sentence};
use std::alloc::Global;

/// The text of the live keys of the ring as a key set (RFC 7517 section 5), newest first. `fed check --keys` reads it as these keys.
pub fn public_set(alloc: Global, ring: &KeyRing) -> Result<Text, Memory>
    ensures text { IfOk result (λ text. text ≡ compact (set_tree (live_set ring.now))) }
    ensures reads_back { IfOk result (λ text. keys_in text ≡ Some (live_set ring.now)) }
{
    let set = ring.live_set(alloc)?;
    let tree = set.write(alloc)?;
    let text = write_tree(alloc, &tree);
    drop(tree);
    text
}

/// The reply that shows the live keys of the ring, or the key of a name: a live one as the set has it, another as historical keys are told.
pub(crate) fn public(
    alloc: Global,
    ring: &KeyRing,
    kid: &Option<Text>,
    notes: &mut Notes,
) -> Result<Reply, Memory>
    ensures reply { IfOk result (λ reply. reply ≡ public_reply kid.now ring.now) }
    ensures small { IfOk result (λ reply. reply.status ≤ 2) }
{
    match kid {
        None => on_line(public_set(alloc, ring)?),
        Some(kid) => named_key(alloc, ring, kid, notes),
    }
}

// The live key of that name, or the one that was.
#[tactic(auto, unfolding(crate::specs::Publics::named_reply))]
fn named_key(alloc: Global, ring: &KeyRing, kid: &Text, notes: &mut Notes) -> Result<Reply, Memory>
    ensures reply { IfOk result (λ reply. reply ≡ named_reply kid.now ring.now) }
    ensures small { IfOk result (λ reply. reply.status ≤ 2) }
{
    let set = ring.live_set(alloc)?;
    match live_key(set.keys.as_slice(), kid) {
        Some(key) => on_line(key_text(alloc, key)?),
        None => past_key(alloc, ring, kid, notes),
    }
}

// The text of a key.
fn key_text(alloc: Global, key: &Jwk) -> Result<Text, Memory>
    requires { IsTrue (is_key key.now) }
    ensures { IfOk result (λ text. text ≡ compact (key_tree key.now)) }
{
    let tree = write_key(alloc, key)?;
    let text = write_tree(alloc, &tree);
    drop(tree);
    text
}

// The key of that name among those of a set, which has the form of one as they have.
fn live_key<'a>(keys: &'a [Jwk], kid: &Text) -> Option<&'a Jwk>
    requires { IsTrue (list_all is_key keys.now) }
    ensures found { option_copied result ≡ find (is_called kid.now) keys.now }
    ensures formed { IfSome result (λ key. IsTrue (is_key key.now)) }
{
    first_called(keys, kid)
}

fn first_called<'a>(keys: &'a [Jwk], kid: &Text) -> Option<&'a Jwk>
    ensures { option_copied result ≡ find (is_called kid.now) keys.now }
{
    keys.iter().find(|key| is_called(key, kid))
}

fn is_called(key: &Jwk, kid: &Text) -> bool
    ensures { result ≡ is_called kid.now key.now }
{
    match key {
        Jwk::Own { kid: name, .. } => name.as_slice() == kid.as_slice(),
        Jwk::Foreign(_) => false,
    }
}

// The retired or revoked key of that name.
#[tactic(auto, unfolding(crate::specs::Publics::past_reply))]
fn past_key(alloc: Global, ring: &KeyRing, kid: &Text, notes: &mut Notes) -> Result<Reply, Memory>
    ensures reply { IfOk result (λ reply. reply ≡ past_reply kid.now ring.now) }
    ensures small { IfOk result (λ reply. reply.status ≤ 2) }
{
    let tree = ring.historical(alloc)?;
    let text = past_text(alloc, &tree, kid);
    drop(tree);
    match text? {
        Some(text) => on_line(text),
        None => {
            notes.say(
                Sentence::of(alloc, b"there is no key ")
                    .and(kid.as_slice())
                    .and(b" in the ring"),
            );
            refused(alloc, b"Unknown")
        }
    }
}

// The text of the key of that name in a list of historical keys.
fn past_text(alloc: Global, keys: &Json, kid: &Text) -> Result<Option<Text>, Memory>
    requires { IsWhole keys.now }
    ensures { IfOk result (λ text. IfSome (as_list keys.now) (λ keys. text ≡ option_map compact (find (is_named kid.now) keys))) }
{
    match named_in(items(keys), kid) {
        Some(key) => Ok(Some(write_tree(alloc, key)?)),
        None => Ok(None),
    }
}

// The items of a list.
fn items(tree: &Json) -> &[Json]
    requires { IsWhole tree.now }
    ensures items { IfSome (as_list tree.now) (λ items. result.now ≡ items) }
    ensures whole { IsTrue (list_all whole result.now) }
{
    match tree {
        Json::List(items) => items.as_slice(),
        _ => &[],
    }
}

// The key of that name in a list, which has a text as the others have.
fn named_in<'a>(keys: &'a [Json], kid: &Text) -> Option<&'a Json>
    requires { IsTrue (list_all whole keys.now) }
    ensures found { option_copied result ≡ find (is_named kid.now) keys.now }
    ensures whole { IfSome result (λ key. IsWhole key.now) }
{
    first_named(keys, kid)
}

fn first_named<'a>(keys: &'a [Json], kid: &Text) -> Option<&'a Json>
    ensures { option_copied result ≡ find (is_named kid.now) keys.now }
{
    keys.iter().find(|key| is_named(key, kid))
}

fn is_named(key: &Json, kid: &Text) -> bool
    ensures { result ≡ is_named kid.now key.now }
{
    match text_at(object_members(key), b"kid") {
        Some(name) => name.as_slice() == kid.as_slice(),
        None => false,
    }
}
