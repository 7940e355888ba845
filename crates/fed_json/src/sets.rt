// Lists as sets.

ghost use Rattle.std.specs.Prelude.{◌≡◌, ◌≢◌, ◌↔◌, ◌⊎◌, ◌++◌, ◌∷◌, [], List, IfOk, OnOk, IsTrue, All, AllPairs, Contains};
ghost use Rattle.fed_json.specs.declared.tree.Json.{Json as Tree};
ghost use Rattle.fed_json.specs.Codes.{Knows};
ghost use Rattle.fed_json.specs.Forms.{IsWellFormed};
ghost use Rattle.fed_json.specs.Sets.{are_among, is_among, once, union_of, intersection_of};

use crate::equal::json_equal;
use crate::places::Places;
use crate::tree::Json;
use fed_base::{Duplicate, Memory, Seq};
use std::alloc::Global;

/// Whether the tree is a member of the list.
pub fn is_member(list: &Seq<Json>, tree: &Json) -> bool
    ensures member { IsTrue result ↔ Contains list.now tree.now }
    ensures test { result ≡ is_among list.now tree.now }
{
    list.as_slice().iter().any(|item| json_equal(item, tree))
}

/// Whether every member of `part` is a member of `list`.
pub fn includes(list: &Seq<Json>, part: &Seq<Json>) -> bool
    ensures members { IsTrue result ↔ All (Contains list.now) part.now }
    ensures test { result ≡ are_among list.now part.now }
{
    for tree in part.as_slice() {
        if !is_member(list, tree) {
            return false;
        }
    }
    true
}

/// Whether every member of `part` is a member of `list`, as `includes` answers. It takes memory, and n log n steps for lists of n values.
pub fn includes_each(alloc: Global, list: &Seq<Json>, part: &Seq<Json>) -> Result<bool, Memory>
    ensures members { IfOk result (λ all. IsTrue all ↔ All (Contains list.now) part.now) }
    ensures test { IfOk result (λ all. all ≡ are_among list.now part.now) }
{
    let mut places = Places::new(alloc, list, part)?;
    places.put_all(alloc, list)?;
    holds_all(alloc, &places, list, part.as_slice())
}

/// The members of `a`, then those of `b`, each once, at its first place.
pub fn union(alloc: Global, a: &Seq<Json>, b: &Seq<Json>) -> Result<Seq<Json>, Memory>
    ensures list { IfOk result (λ list. list ≡ union_of a.now b.now) }
    ensures members { IfOk result
        (λ list. (x : Tree) → Contains list x ↔ (Contains a.now x ⊎ Contains b.now x)) }
    ensures distinct { IfOk result (AllPairs (λ x y. x ≢ y)) }
    ensures well_formed { All IsWellFormed a.now → All IsWellFormed b.now
        → IfOk result (All IsWellFormed) }
{
    let mut list = Seq::new(alloc);
    let mut places = Places::new(alloc, a, b)?;
    add_all(alloc, &mut list, &mut places, a.as_slice())?;
    add_all(alloc, &mut list, &mut places, b.as_slice())?;
    Ok(list)
}

/// The members of `a` that are in `b`, each once, in the order of `a`.
pub fn intersect(alloc: Global, a: &Seq<Json>, b: &Seq<Json>) -> Result<Seq<Json>, Memory>
    ensures list { IfOk result (λ list. list ≡ intersection_of a.now b.now) }
    ensures members { IfOk result
        (λ list. (x : Tree) → Contains list x ↔ (Contains a.now x × Contains b.now x)) }
    ensures distinct { IfOk result (AllPairs (λ x y. x ≢ y)) }
    ensures well_formed { All IsWellFormed a.now → IfOk result (All IsWellFormed) }
{
    let mut within = Places::new(alloc, a, b)?;
    within.put_all(alloc, b)?;
    let mut list = Seq::new(alloc);
    let mut places = Places::new(alloc, a, b)?;
    add_common(alloc, &mut list, &mut places, a.as_slice(), b, &within)?;
    Ok(list)
}

// Whether each of the trees is a member of the list, whose places are given.
fn holds_all(
    alloc: Global,
    places: &Places,
    list: &Seq<Json>,
    trees: &[Json],
) -> Result<bool, Memory>
    requires { Knows places.now list.now }
    ensures { IfOk result (λ all. all ≡ are_among list.now trees.now) }
{
    for tree in trees {
        if !places.holds(alloc, list, tree)? {
            return Ok(false);
        }
    }
    Ok(true)
}

// Appends those of the trees that aren't in the list yet.
fn add_all(
    alloc: Global,
    list: &mut Seq<Json>,
    places: &mut Places,
    trees: &[Json],
) -> Result<(), Memory>
    requires { Knows places.old list.old }
    ensures list { (before : List Tree) → list.old ≡ once before
        → OnOk result (list.new ≡ once (before ++ trees.now)) }
    ensures known { OnOk result (Knows places.new list.new) }
{
    for tree in trees {
        add(alloc, list, places, tree)?;
    }
    Ok(())
}

// Appends those of the trees that are in `b` and not in the list yet. The places of `b` are `within`.
fn add_common(
    alloc: Global,
    list: &mut Seq<Json>,
    places: &mut Places,
    trees: &[Json],
    b: &Seq<Json>,
    within: &Places,
) -> Result<(), Memory>
    requires known { Knows places.old list.old }
    requires within { Knows within.now b.now }
    ensures { list.old ≡ [] → OnOk result (list.new ≡ intersection_of trees.now b.now) }
{
    for tree in trees {
        if within.holds(alloc, b, tree)? {
            add(alloc, list, places, tree)?;
        }
    }
    Ok(())
}

// Appends the tree where it isn't in the list yet.
fn add(alloc: Global, list: &mut Seq<Json>, places: &mut Places, tree: &Json) -> Result<(), Memory>
    requires { Knows places.old list.old }
    ensures list { (before : List Tree) → list.old ≡ once before
        → OnOk result (list.new ≡ once (before ++ tree.now ∷ [])) }
    ensures known { OnOk result (Knows places.new list.new) }
{
    if !places.note(alloc, list, tree)? {
        list.push(tree.copy(alloc)?)?;
    }
    Ok(())
}
