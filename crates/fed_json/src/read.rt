// Trees from texts.

ghost use Rattle.std.specs.Prelude.{◌≡◌, ◌≤◌, ◌↔◌, IfOk, IsTrue};
ghost use Rattle.std.specs.List.{list_all};
ghost use Rattle.fed_json.specs.Forms.{IsWellFormed, IsWhole, HasOdd, nesting, well_formed, members_well_formed};
ghost use Rattle.fed_json.specs.Reading.{Reads, tree_in, tree_of, items_of, members_of, number_tree};
ghost use Rattle.serde_json.specs.View.{view, items_view, members_view, number_view};

use crate::fault::TreeFault;
use crate::tree::{Json, Member};
use fed_base::{Memory, Seq, Text};
use serde_json::{Map, Number, Value};
use std::alloc::Global;

/// Reads a JSON text (RFC 8259) as `serde_json` does. Of members that repeat a name the last counts, and members
/// stand in strictly rising byte order of their names.
///
/// `Syntax` where the text isn't JSON, nests deeper than 127, isn't UTF-8, has a lone surrogate, or holds a number
/// whose nearest double isn't finite.
pub fn read_tree(alloc: Global, text: &[u8]) -> Result<Json, TreeFault>
    ensures tree { Reads result (tree_in text.now) }
    ensures well_formed { IfOk result IsWellFormed }
    ensures whole { IfOk result (λ tree. IsWhole tree ↔ ¬ HasOdd tree) }
    ensures shallow { IfOk result (λ tree. nesting tree ≤ 127) }
{
    match Value::from_slice(alloc, text) {
        Ok(value) => Ok(tree(alloc, value)?),
        Err(e) => if e.is_memory() {
            Err(TreeFault::Memory)
        } else {
            Err(TreeFault::Syntax)
        },
    }
}

// The value's texts are moved into the tree.
#[cycle(tree)]
fn tree(alloc: Global, value: Value) -> Result<Json, Memory>
    ensures tree { IfOk result (λ tree. tree ≡ tree_of (view value)) }
    ensures well_formed { IfOk result IsWellFormed }
{
    match value {
        Value::Null => Ok(Json::Null),
        Value::Bool(b) => Ok(Json::Bool(b)),
        Value::Number(n) => Ok(number(&n)),
        Value::String(s) => Ok(Json::Text(Text::from_vec(s.into_bytes()))),
        Value::Array(items) => Ok(Json::List(list(alloc, items)?)),
        Value::Object(members) => Ok(Json::Object(object(alloc, members)?)),
    }
}

#[cycle(tree)]
fn list(alloc: Global, items: Vec<Value>) -> Result<Seq<Json>, Memory>
    ensures items { IfOk result (λ list. list ≡ items_of (items_view items.items)) }
    ensures well_formed { IfOk result (λ list. IsTrue (list_all well_formed list)) }
{
    let mut list = Seq::new(alloc);
    for item in items {
        list.push(tree(alloc, item)?)?;
    }
    Ok(list)
}

#[cycle(tree)]
fn object(alloc: Global, entries: Map<String, Value>) -> Result<Seq<Member>, Memory>
    ensures members { IfOk result (λ members. members ≡ members_of (members_view entries.entries)) }
    ensures well_formed { IfOk result (λ members. IsTrue (members_well_formed members)) }
{
    let mut members = Seq::new(alloc);
    for (name, value) in entries {
        let name = Text::from_vec(name.into_bytes());
        let value = tree(alloc, value)?;
        members.push(Member { name, value })?;
    }
    Ok(members)
}

fn number(n: &Number) -> Json
    ensures value { result ≡ number_tree (number_view n.now) }
    ensures well_formed { IsWellFormed result }
{
    if let Some(n) = n.as_u64() {
        Json::Int(n as i128)
    } else if let Some(n) = n.as_i64() {
        Json::Int(n as i128)
    } else {
        Json::Odd
    }
}
