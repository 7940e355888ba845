// The objects of a configuration.

ghost use Rattle.std.specs.Prelude.{◌≡◌, ◌++◌, IsTrue, OnOk, codes};
ghost use Rattle.std.specs.List.{list_all};
ghost use Rattle.fed_json.specs.Forms.{IsWellFormed, members_well_formed, well_formed};
ghost use Rattle.fed_json.specs.Trees.{find as value_at, object_members};
ghost use Rattle.config_warnings.specs.Places.{each_from, under as place_under};
ghost use Rattle.config_warnings.specs.Trees.{of_constraints, of_marks, of_members, of_others, of_policy, of_resolver, of_subordinate, of_subordinates, of_tree, subordinate_at, subordinate_in, unknown_in, unknown_items, unknown_under, where_there};
ghost use Rattle.config_warnings.specs.declared.part.Part.TheVariants.{Naming, Owner};

use crate::members::{unknown_in, unknown_items, unknown_members, unknown_under};
use crate::part::Part;
use crate::places::{item_at, under};
use crate::policies::of_policy;
use crate::warning::Warning;
use fed_base::{Memory, Seq};
use fed_json::{Json, Member, find, object_members};
use std::alloc::Global;

/// Warns of what is wrong in the configuration with that tree.
#[tactic(auto, unfolding(crate::specs::Trees::of_members))]
pub(crate) fn of_tree(alloc: Global, out: &mut Seq<Warning>, tree: &Json) -> Result<(), Memory>
    requires { IsWellFormed tree.now }
    ensures { OnOk result (out.new ≡ out.old ++ of_tree tree.now) }
{
    match tree {
        Json::Object(members) => of_members(alloc, out, members.as_slice()),
        _ => Ok(()),
    }
}

#[tactic(auto, unfolding(crate::specs::Trees::of_members))]
fn of_members(alloc: Global, out: &mut Seq<Warning>, members: &[Member]) -> Result<(), Memory>
    requires { IsTrue (members_well_formed members.now) }
    ensures { OnOk result (out.new ≡ out.old ++ of_members members.now) }
{
    unknown_members(alloc, out, Part::Node, b"", members)?;
    of_marks(alloc, out, members)?;
    of_others(alloc, out, members)
}

// Of the trust marks that it shows, and of the owners of types that it names.
fn of_marks(alloc: Global, out: &mut Seq<Warning>, members: &[Member]) -> Result<(), Memory>
    ensures { OnOk result (out.new ≡ out.old ++ of_marks members.now) }
{
    items_at(
        alloc,
        out,
        Part::Mark,
        b"trust_marks",
        members,
        b"trust_marks",
    )?;
    owners_at(alloc, out, members)
}

// Of each object of the list of that name, where there is one.
fn items_at(
    alloc: Global,
    out: &mut Seq<Warning>,
    part: Part,
    place: &[u8],
    members: &[Member],
    name: &[u8],
) -> Result<(), Memory>
    ensures { OnOk result (out.new ≡ out.old ++ where_there (unknown_items part place.now) (value_at name.now members.now)) }
{
    match find(members, name) {
        Some(list) => unknown_items(alloc, out, part, place, list),
        None => Ok(()),
    }
}

fn owners_at(alloc: Global, out: &mut Seq<Warning>, members: &[Member]) -> Result<(), Memory>
    ensures { OnOk result (out.new ≡ out.old ++ where_there (unknown_under Owner (codes "trust_mark_owners")) (value_at (codes "trust_mark_owners") members.now)) }
{
    match find(members, b"trust_mark_owners") {
        Some(owners) => unknown_under(alloc, out, Part::Owner, b"trust_mark_owners", owners),
        None => Ok(()),
    }
}

// Of those whom it knows.
fn of_others(alloc: Global, out: &mut Seq<Warning>, members: &[Member]) -> Result<(), Memory>
    requires { IsTrue (members_well_formed members.now) }
    ensures { OnOk result (out.new ≡ out.old ++ of_others members.now) }
{
    subordinates_at(alloc, out, members)?;
    resolver_at(alloc, out, members)
}

fn subordinates_at(alloc: Global, out: &mut Seq<Warning>, members: &[Member]) -> Result<(), Memory>
    requires { IsTrue (members_well_formed members.now) }
    ensures { OnOk result (out.new ≡ out.old ++ where_there of_subordinates (value_at (codes "subordinates") members.now)) }
{
    match find(members, b"subordinates") {
        Some(subordinates) => of_subordinates(alloc, out, subordinates),
        None => Ok(()),
    }
}

fn resolver_at(alloc: Global, out: &mut Seq<Warning>, members: &[Member]) -> Result<(), Memory>
    ensures { OnOk result (out.new ≡ out.old ++ where_there of_resolver (value_at (codes "resolver") members.now)) }
{
    match find(members, b"resolver") {
        Some(resolver) => of_resolver(alloc, out, resolver),
        None => Ok(()),
    }
}

// Of the entities below it.
#[tactic(auto, unfolding(crate::specs::Places::each_from))]
fn of_subordinates(alloc: Global, out: &mut Seq<Warning>, tree: &Json) -> Result<(), Memory>
    requires { IsWellFormed tree.now }
    ensures { OnOk result (out.new ≡ out.old ++ of_subordinates tree.now) }
{
    match tree {
        Json::List(items) => each_subordinate(alloc, out, items.as_slice()),
        _ => Ok(()),
    }
}

#[tactic(auto, unfolding(crate::specs::Places::each_from))]
fn each_subordinate(alloc: Global, out: &mut Seq<Warning>, items: &[Json]) -> Result<(), Memory>
    requires { IsTrue (list_all well_formed items.now) }
    ensures { OnOk result (out.new ≡ out.old ++ each_from subordinate_at 0 items.now) }
{
    let mut index = 0;
    for item in items {
        subordinate_at(alloc, out, index, item)?;
        index += 1;
    }
    Ok(())
}

fn subordinate_at(
    alloc: Global,
    out: &mut Seq<Warning>,
    index: usize,
    tree: &Json,
) -> Result<(), Memory>
    requires { IsWellFormed tree.now }
    ensures { OnOk result (out.new ≡ out.old ++ subordinate_at index tree.now) }
{
    let place = item_at(alloc, b"subordinates", index)?;
    of_subordinate(alloc, out, place.as_slice(), tree)
}

#[tactic(auto, unfolding(crate::specs::Trees::subordinate_in))]
fn of_subordinate(
    alloc: Global,
    out: &mut Seq<Warning>,
    place: &[u8],
    tree: &Json,
) -> Result<(), Memory>
    requires { IsWellFormed tree.now }
    ensures { OnOk result (out.new ≡ out.old ++ of_subordinate place.now tree.now) }
{
    match tree {
        Json::Object(members) => subordinate_in(alloc, out, place, members.as_slice()),
        _ => Ok(()),
    }
}

#[tactic(auto, unfolding(crate::specs::Trees::subordinate_in))]
fn subordinate_in(
    alloc: Global,
    out: &mut Seq<Warning>,
    place: &[u8],
    members: &[Member],
) -> Result<(), Memory>
    requires { IsTrue (members_well_formed members.now) }
    ensures { OnOk result (out.new ≡ out.old ++ subordinate_in place.now members.now) }
{
    unknown_members(alloc, out, Part::Subordinate, place, members)?;
    policy_at(alloc, out, place, members)?;
    constraints_at(alloc, out, place, members)
}

// Of its policy, where it has one.
fn policy_at(
    alloc: Global,
    out: &mut Seq<Warning>,
    place: &[u8],
    members: &[Member],
) -> Result<(), Memory>
    requires { IsTrue (members_well_formed members.now) }
    ensures { OnOk result (out.new ≡ out.old
        ++ where_there (of_policy (place_under place.now (codes "metadata_policy"))) (value_at (codes "metadata_policy") members.now)) }
{
    match find(members, b"metadata_policy") {
        Some(policy) => {
            let place = under(alloc, place, b"metadata_policy")?;
            of_policy(alloc, out, place.as_slice(), policy)
        }
        None => Ok(()),
    }
}

// Of its constraints, where it has them.
fn constraints_at(
    alloc: Global,
    out: &mut Seq<Warning>,
    place: &[u8],
    members: &[Member],
) -> Result<(), Memory>
    ensures { OnOk result (out.new ≡ out.old
        ++ where_there (of_constraints (place_under place.now (codes "constraints"))) (value_at (codes "constraints") members.now)) }
{
    match find(members, b"constraints") {
        Some(constraints) => {
            let place = under(alloc, place, b"constraints")?;
            of_constraints(alloc, out, place.as_slice(), constraints)
        }
        None => Ok(()),
    }
}

#[tactic(auto, unfolding(crate::specs::Trees::of_constraints))]
fn of_constraints(
    alloc: Global,
    out: &mut Seq<Warning>,
    place: &[u8],
    tree: &Json,
) -> Result<(), Memory>
    ensures { OnOk result (out.new ≡ out.old ++ of_constraints place.now tree.now) }
{
    unknown_in(alloc, out, Part::Constraints, place, tree)?;
    naming_at(alloc, out, place, object_members(tree))
}

fn naming_at(
    alloc: Global,
    out: &mut Seq<Warning>,
    place: &[u8],
    members: &[Member],
) -> Result<(), Memory>
    ensures { OnOk result (out.new ≡ out.old
        ++ where_there (unknown_in Naming (place_under place.now (codes "naming_constraints"))) (value_at (codes "naming_constraints") members.now)) }
{
    match find(members, b"naming_constraints") {
        Some(names) => {
            let place = under(alloc, place, b"naming_constraints")?;
            unknown_in(alloc, out, Part::Naming, place.as_slice(), names)
        }
        None => Ok(()),
    }
}

// Of what it resolves by.
#[tactic(auto, unfolding(crate::specs::Trees::of_resolver))]
fn of_resolver(alloc: Global, out: &mut Seq<Warning>, tree: &Json) -> Result<(), Memory>
    ensures { OnOk result (out.new ≡ out.old ++ of_resolver tree.now) }
{
    unknown_in(alloc, out, Part::Resolver, b"resolver", tree)?;
    let members = object_members(tree);
    items_at(
        alloc,
        out,
        Part::Anchor,
        b"resolver.anchors",
        members,
        b"anchors",
    )?;
    items_at(
        alloc,
        out,
        Part::Route,
        b"resolver.routes",
        members,
        b"routes",
    )
}
