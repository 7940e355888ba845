// Equality of trees.

ghost use Rattle.std.specs.Prelude.{◌≡◌, ◌↔◌, List, ℕ, IsTrue};
ghost use Rattle.fed_json.specs.declared.tree.Json.{Object};
ghost use Rattle.fed_json.specs.declared.tree.Member.{Member as Entry};
ghost use Rattle.fed_json.specs.Forms.{IsWellFormed};
ghost use Rattle.fed_json.specs.Trees.{find};

use crate::tree::{Json, Member};

/// Whether the two are one value. Lists are compared in their order, and well formed objects are the same where
/// they have the same value under each name.
pub fn json_equal(a: &Json, b: &Json) -> bool
    ensures equal { IsTrue result ↔ (a.now ≡ b.now) }
    ensures objects { (x y : List Entry) → a.now ≡ Object x → b.now ≡ Object y
        → IsWellFormed a.now → IsWellFormed b.now
        → ((name : List ℕ) → find name x ≡ find name y) → IsTrue result }
{
    trees_equal(a, b)
}

#[cycle(equal)]
fn trees_equal(a: &Json, b: &Json) -> bool
    ensures { IsTrue result ↔ (a.now ≡ b.now) }
{
    match a {
        Json::Null => matches!(b, Json::Null),
        Json::Bool(x) => matches!(b, Json::Bool(y) if x == y),
        Json::Int(x) => matches!(b, Json::Int(y) if x == y),
        Json::Odd => matches!(b, Json::Odd),
        Json::Text(x) => matches!(b, Json::Text(y) if x.as_slice() == y.as_slice()),
        Json::List(x) => matches!(b, Json::List(y) if items_equal(x.as_slice(), y.as_slice())),
        Json::Object(x) =>
            matches!(b, Json::Object(y) if members_equal(x.as_slice(), y.as_slice())),
    }
}

#[cycle(equal)]
fn items_equal(a: &[Json], b: &[Json]) -> bool
    ensures { IsTrue result ↔ (a.now ≡ b.now) }
{
    if a.len() != b.len() {
        return false;
    }
    for (x, y) in a.iter().zip(b) {
        if !trees_equal(x, y) {
            return false;
        }
    }
    true
}

#[cycle(equal)]
fn members_equal(a: &[Member], b: &[Member]) -> bool
    ensures { IsTrue result ↔ (a.now ≡ b.now) }
{
    if a.len() != b.len() {
        return false;
    }
    for (x, y) in a.iter().zip(b) {
        if x.name.as_slice() != y.name.as_slice() || !trees_equal(&x.value, &y.value) {
            return false;
        }
    }
    true
}
