// Texts of trees.

ghost use Rattle.std.specs.Prelude.{◌≡◌, ◌≤◌, IfOk, IsTrue, Some, string_bytes};
ghost use Rattle.std.specs.List.{list_all};
ghost use Rattle.std.specs.Str.{IsUtf8};
ghost use Rattle.fed_json.specs.Compact.{compact};
ghost use Rattle.fed_json.specs.Forms.{IsWhole, nesting, in_bounds, whole, members_whole};
ghost use Rattle.fed_json.specs.Reading.{tree_in};
ghost use Rattle.fed_json.specs.Values.{StandsFor, ItemsStandFor, MembersStandFor};
ghost use Rattle.fed_json.specs.declared.tree.Json.{Int};
ghost use Rattle.serde_json.specs.View.{view, items_view, members_view};

use crate::tree::{Json, Member};
use fed_base::{Memory, Text};
use serde_json::{Map, Number, Value};
use std::alloc::Global;

/// The compact text of a whole tree: no space, and members in byte order of their names. A tree that nests at
/// most 127 deep is read back from its text.
pub fn write_tree(alloc: Global, tree: &Json) -> Result<Text, Memory>
    requires { IsWhole tree.now }
    ensures text { IfOk result (λ text. text ≡ compact tree.now) }
    ensures reads_back { IfOk result (λ text. nesting tree.now ≤ 127 → tree_in text ≡ Some tree.now) }
{
    let bytes = value(alloc, tree)?.to_vec(alloc)?;
    Ok(Text::from_vec(bytes))
}

// The writer of `serde_json` takes its own values, so the tree is copied into one.
#[cycle(value)]
fn value(alloc: Global, tree: &Json) -> Result<Value, Memory>
    requires { IsWhole tree.now }
    ensures { IfOk result (λ value. StandsFor tree.now (view value)) }
{
    match tree {
        Json::Null => Ok(Value::Null),
        Json::Bool(b) => Ok(Value::Bool(*b)),
        Json::Int(n) => Ok(number(*n)),
        Json::Odd => unreachable!(),
        Json::Text(text) => Ok(Value::String(string(alloc, text.as_slice())?)),
        Json::List(items) => Ok(Value::Array(array(alloc, items.as_slice())?)),
        Json::Object(members) => Ok(Value::Object(map(alloc, members.as_slice())?)),
    }
}

#[cycle(value)]
fn array(alloc: Global, items: &[Json]) -> Result<Vec<Value>, Memory>
    requires { IsTrue (list_all whole items.now) }
    ensures { IfOk result (λ values. ItemsStandFor items.now (items_view values.items)) }
{
    let mut values = Vec::new(alloc);
    for item in items {
        values.push(value(alloc, item)?)?;
    }
    Ok(values)
}

#[cycle(value)]
fn map(alloc: Global, members: &[Member]) -> Result<Map<String, Value>, Memory>
    requires { IsTrue (members_whole members.now) }
    ensures { IfOk result (λ map. MembersStandFor members.now (members_view map.entries)) }
{
    let mut map = Map::new(alloc);
    for member in members {
        let name = string(alloc, member.name.as_slice())?;
        let value = value(alloc, &member.value)?;
        map.insert(name, value)?;
    }
    Ok(map)
}

fn number(n: i128) -> Value
    requires { IsTrue (in_bounds n) }
    ensures { StandsFor (Int n) (view result) }
{
    match Number::from_i128(n) {
        Some(n) => Value::Number(n),
        None => unreachable!(),
    }
}

fn string(alloc: Global, text: &[u8]) -> Result<String, Memory>
    requires { IsUtf8 text.now }
    ensures { IfOk result (λ string. string_bytes string ≡ text.now) }
{
    match std::str::from_utf8(text) {
        Ok(text) => Ok(String::from_str(alloc, text)?),
        Err(_) => unreachable!(),
    }
}
