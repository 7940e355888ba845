// Members by name, and the forms of their values.

ghost use Rattle.std.specs.Prelude.{◌≡◌, ◌+◌, ◌≤◌, ◌^◌, IfOk, IsTrue};
ghost use Rattle.fed_json.specs.Forms.{IsWellFormed, members_well_formed};
ghost use Rattle.fed_json.specs.Trees.{as_text, find as value_at, texts_of};
ghost use Rattle.node_config.specs.Answers.{GivesMember, Reads, ReadsBy};
ghost use Rattle.node_config.specs.Forms.{needed, number_up_to, number_within, possible_list};

use crate::fault::{ConfigFault, FormFault};
use fed_base::{Duplicate, Seq, Text};
use fed_json::{Json, Member, copied_texts, count_below, find};
use std::alloc::Global;

/// The value of a member that must be there.
pub(crate) fn needed<'a>(members: &'a [Member], name: &[u8]) -> Result<&'a Json, FormFault>
    ensures value { ReadsBy (λ tree. tree.now) result (value_at name.now members.now) }
    ensures well_formed { IsTrue (members_well_formed members.now) → IfOk result (λ tree. IsWellFormed tree.now) }
{
    match find(members, name) {
        Some(tree) => Ok(tree),
        None => Err(FormFault::Shape),
    }
}

/// The text of a member that must be there.
pub(crate) fn text_of(alloc: Global, members: &[Member], name: &[u8]) -> Result<Text, FormFault>
    ensures { Reads result (needed name.now as_text members.now) }
{
    match needed(members, name)? {
        Json::Text(text) => Ok(text.copy(alloc)?),
        _ => Err(FormFault::Shape),
    }
}

/// The whole number of a member that must be there.
pub(crate) fn number(
    members: &[Member],
    name: &[u8],
    least: u64,
    most: u64,
) -> Result<u64, FormFault>
    requires { most + 1 ≤ 2 ^ 63 }
    ensures { Reads result (needed name.now (number_within least most) members.now) }
{
    within(needed(members, name)?, least, most)
}

/// The whole number of a member that may be absent: 1 to `most`, and `most` where it is absent.
pub(crate) fn number_up_to(members: &[Member], name: &[u8], most: u64) -> Result<u64, FormFault>
    requires { most + 1 ≤ 2 ^ 63 }
    ensures { Reads result (number_up_to most name.now members.now) }
{
    match find(members, name) {
        Some(tree) => within(tree, 1, most),
        None => Ok(most),
    }
}

fn within(tree: &Json, least: u64, most: u64) -> Result<u64, FormFault>
    requires { most + 1 ≤ 2 ^ 63 }
    ensures { Reads result (number_within least most tree.now) }
{
    match count_below(tree, most + 1) {
        Some(n) if least <= n => Ok(n),
        _ => Err(FormFault::Shape),
    }
}

/// The texts of a list that may be absent.
pub(crate) fn texts(alloc: Global, members: &[Member], name: &[u8]) -> Result<Seq<Text>, FormFault>
    ensures { Reads result (possible_list name.now texts_of members.now) }
{
    let Some(tree) = find(members, name) else {
        return Ok(Seq::new(alloc));
    };
    copied_texts(alloc, tree)?.ok_or(FormFault::Shape)
}

/// What a member says, or its name where it isn't of its form.
pub(crate) fn member<T>(
    alloc: Global,
    name: &[u8],
    read: Result<T, FormFault>,
) -> Result<T, ConfigFault>
    ensures { GivesMember name.now read result }
{
    match read {
        Ok(value) => Ok(value),
        Err(FormFault::Shape) => Err(ConfigFault::Shape(Text::of(alloc, name)?)),
        Err(FormFault::Memory) => Err(ConfigFault::Memory),
    }
}
