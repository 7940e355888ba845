// Members by their names, and the forms of values.

ghost use Rattle.std.specs.Prelude.{◌≡◌, IfOk, IfSome, IsTrue};
ghost use Rattle.std.specs.Option.{option_copied};
ghost use Rattle.std.specs.Str.{IsUtf8};
ghost use Rattle.fed_json.specs.Forms.{IsWellFormed, members_well_formed};
ghost use Rattle.fed_json.specs.Trees.{find as value_at, text_at as text_in, object_members as members_in, count_below as count_in, is_null as null_tree, texts_in, texts_of};

use crate::tree::{Json, Member};
use fed_base::{Duplicate, Memory, Seq, Text};
use std::alloc::Global;

/// The value of the first member of that name.
pub fn find<'a>(members: &'a [Member], name: &[u8]) -> Option<&'a Json>
    ensures value { option_copied result ≡ value_at name.now members.now }
    ensures well_formed { IsTrue (members_well_formed members.now)
        → IfSome result (λ tree. IsWellFormed tree.now) }
{
    for member in members {
        if member.name.as_slice() == name {
            return Some(&member.value);
        }
    }
    None
}

/// The text that the member of that name is.
pub fn text_at<'a>(members: &'a [Member], name: &[u8]) -> Option<&'a Text>
    ensures text { option_copied result ≡ text_in name.now members.now }
    ensures utf8 { IsTrue (members_well_formed members.now)
        → IfSome result (λ text. IsUtf8 text.now) }
{
    match find(members, name) {
        Some(Json::Text(text)) => Some(text),
        _ => None,
    }
}

/// The members of an object; any other tree has none.
pub fn object_members(tree: &Json) -> &[Member]
    ensures { result.now ≡ members_in tree.now }
{
    match tree {
        Json::Object(members) => members.as_slice(),
        _ => &[],
    }
}

/// The whole number that the tree is, where it is from 0 on and below the limit.
pub fn count_below(tree: &Json, limit: u64) -> Option<u64>
    ensures { result ≡ count_in limit tree.now }
{
    match tree {
        Json::Int(n) if 0 <= *n && *n < limit as i128 => Some(*n as u64),
        _ => None,
    }
}

/// Whether the value is null.
pub fn is_null(tree: &Json) -> bool
    ensures { result ≡ null_tree tree.now }
{
    matches!(tree, Json::Null)
}

/// Copies of the texts of a list, and `None` where the tree is no list or one of its items is no text.
pub fn copied_texts(alloc: Global, tree: &Json) -> Result<Option<Seq<Text>>, Memory>
    ensures { IfOk result (λ texts. texts ≡ texts_of tree.now) }
{
    match tree {
        Json::List(items) => texts_in(alloc, items.as_slice()),
        _ => Ok(None),
    }
}

// Copies of the texts that the items are, and `None` where one is no text.
fn texts_in(alloc: Global, items: &[Json]) -> Result<Option<Seq<Text>>, Memory>
    ensures { IfOk result (λ texts. texts ≡ texts_in items.now) }
{
    let mut texts = Seq::new(alloc);
    for item in items {
        match item {
            Json::Text(text) => texts.push(text.copy(alloc)?)?,
            _ => return Ok(None),
        }
    }
    Ok(Some(texts))
}
