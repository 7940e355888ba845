// Which trees have a text.

ghost use Rattle.std.specs.Prelude.{◌≡◌, ◌↔◌, ◌&&◌, IsTrue, map};
ghost use Rattle.std.specs.Str.{is_utf8 as is_text};
ghost use Rattle.std.specs.List.{list_all};
ghost use Rattle.fed_json.specs.Forms.{IsWhole, whole, in_bounds as fits, is_before, rising};

use crate::tree::{Json, Member};

const LEAST: i128 = i64::MIN as i128;

const GREATEST: i128 = u64::MAX as i128;

/// Whether the tree has a JSON text: no `Odd`, integers from -2^63 to 2^64 - 1, UTF-8 texts and names, and
/// members in strictly rising byte order of their names.
pub fn is_whole(tree: &Json) -> bool
    ensures { IsTrue result ↔ IsWhole tree.now }
{
    has_text(tree)
}

#[cycle(whole)]
fn has_text(tree: &Json) -> bool
    ensures { result ≡ whole tree.now }
{
    match tree {
        Json::Null | Json::Bool(_) => true,
        Json::Int(n) => in_bounds(*n),
        Json::Odd => false,
        Json::Text(text) => is_utf8(text.as_slice()),
        Json::List(items) => items_have_text(items.as_slice()),
        Json::Object(members) => names_rise(members.as_slice())
            && members_have_text(members.as_slice()),
    }
}

#[cycle(whole)]
fn items_have_text(items: &[Json]) -> bool
    ensures { result ≡ list_all whole items.now }
{
    for item in items {
        if !has_text(item) {
            return false;
        }
    }
    true
}

#[cycle(whole)]
fn members_have_text(members: &[Member]) -> bool
    ensures { result ≡ list_all (λ m. is_text m.name && whole m.value) members.now }
{
    for member in members {
        if !is_utf8(member.name.as_slice()) || !has_text(&member.value) {
            return false;
        }
    }
    true
}

fn names_rise(members: &[Member]) -> bool
    ensures { result ≡ rising (map (λ m. m.name) members.now) }
{
    let Some((first, others)) = members.split_first() else {
        return true;
    };
    let mut before = first.name.as_slice();
    for member in others {
        let name = member.name.as_slice();
        if before >= name {
            return false;
        }
        before = name;
    }
    true
}

fn in_bounds(n: i128) -> bool
    ensures { result ≡ fits n }
{
    LEAST <= n && n <= GREATEST
}

fn is_utf8(bytes: &[u8]) -> bool
    ensures { result ≡ is_text bytes.now }
{
    std::str::from_utf8(bytes).is_ok()
}
