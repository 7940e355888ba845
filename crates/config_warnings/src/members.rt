// Members that aren't known.

ghost use Rattle.std.specs.Prelude.{◌≡◌, ◌++◌, flat_map, OnOk};
ghost use Rattle.config_warnings.specs.Places.{each_from};
ghost use Rattle.config_warnings.specs.Trees.{unknown_below, unknown_in, unknown_item, unknown_items, unknown_member, unknown_members, unknown_under};

use crate::part::Part;
use crate::places::{item_at, under};
use crate::warning::{Kind, Warning, warn};
use fed_base::{Memory, Seq};
use fed_json::{Json, Member, object_members};
use std::alloc::Global;

/// Warns of the members of an object that aren't known.
pub(crate) fn unknown_in(
    alloc: Global,
    out: &mut Seq<Warning>,
    part: Part,
    place: &[u8],
    tree: &Json,
) -> Result<(), Memory>
    ensures { OnOk result (out.new ≡ out.old ++ unknown_in part place.now tree.now) }
{
    unknown_members(alloc, out, part, place, object_members(tree))
}

/// The same of its members.
pub(crate) fn unknown_members(
    alloc: Global,
    out: &mut Seq<Warning>,
    part: Part,
    place: &[u8],
    members: &[Member],
) -> Result<(), Memory>
    ensures { OnOk result (out.new ≡ out.old ++ unknown_members part place.now members.now) }
{
    for member in members {
        unknown_member(alloc, out, part, place, member)?;
    }
    Ok(())
}

fn unknown_member(
    alloc: Global,
    out: &mut Seq<Warning>,
    part: Part,
    place: &[u8],
    member: &Member,
) -> Result<(), Memory>
    ensures { OnOk result (out.new ≡ out.old ++ unknown_member part place.now member.now) }
{
    if part.knows(member.name.as_slice()) {
        Ok(())
    } else {
        warn(
            alloc,
            out,
            Kind::Unknown(part),
            place,
            member.name.as_slice(),
        )
    }
}

/// The same of each object of a list.
#[tactic(auto, unfolding(crate::specs::Places::each_from))]
pub(crate) fn unknown_items(
    alloc: Global,
    out: &mut Seq<Warning>,
    part: Part,
    place: &[u8],
    tree: &Json,
) -> Result<(), Memory>
    ensures { OnOk result (out.new ≡ out.old ++ unknown_items part place.now tree.now) }
{
    match tree {
        Json::List(items) => unknown_each(alloc, out, part, place, items.as_slice()),
        _ => Ok(()),
    }
}

#[tactic(auto, unfolding(crate::specs::Places::each_from))]
fn unknown_each(
    alloc: Global,
    out: &mut Seq<Warning>,
    part: Part,
    place: &[u8],
    items: &[Json],
) -> Result<(), Memory>
    ensures { OnOk result (out.new ≡ out.old ++ each_from (unknown_item part place.now) 0 items.now) }
{
    let mut index = 0;
    for item in items {
        unknown_item(alloc, out, part, place, index, item)?;
        index += 1;
    }
    Ok(())
}

fn unknown_item(
    alloc: Global,
    out: &mut Seq<Warning>,
    part: Part,
    place: &[u8],
    index: usize,
    item: &Json,
) -> Result<(), Memory>
    ensures { OnOk result (out.new ≡ out.old ++ unknown_item part place.now index item.now) }
{
    let place = item_at(alloc, place, index)?;
    unknown_in(alloc, out, part, place.as_slice(), item)
}

/// The same of each object under any name.
pub(crate) fn unknown_under(
    alloc: Global,
    out: &mut Seq<Warning>,
    part: Part,
    place: &[u8],
    tree: &Json,
) -> Result<(), Memory>
    ensures { OnOk result (out.new ≡ out.old ++ unknown_under part place.now tree.now) }
{
    for member in object_members(tree) {
        unknown_below(alloc, out, part, place, member)?;
    }
    Ok(())
}

fn unknown_below(
    alloc: Global,
    out: &mut Seq<Warning>,
    part: Part,
    place: &[u8],
    member: &Member,
) -> Result<(), Memory>
    ensures { OnOk result (out.new ≡ out.old ++ unknown_below part place.now member.now) }
{
    let place = under(alloc, place, member.name.as_slice())?;
    unknown_in(alloc, out, part, place.as_slice(), &member.value)
}
