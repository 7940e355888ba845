// Copies of trees.

ghost use Rattle.std.specs.Prelude.{◌≡◌, IfOk};

use crate::tree::{Json, Member};
use fed_base::{Duplicate, Memory, Seq};
use std::alloc::Global;

impl Duplicate for Json {
    fn copy(&self, alloc: Global) -> Result<Self, Memory> {
        copied(alloc, self)
    }
}

impl Duplicate for Member {
    fn copy(&self, alloc: Global) -> Result<Self, Memory> {
        copied_member(alloc, self)
    }
}

#[cycle(copied)]
fn copied(alloc: Global, tree: &Json) -> Result<Json, Memory>
    ensures { IfOk result (λ copy. copy ≡ tree.now) }
{
    match tree {
        Json::Null => Ok(Json::Null),
        Json::Bool(b) => Ok(Json::Bool(*b)),
        Json::Int(n) => Ok(Json::Int(*n)),
        Json::Odd => Ok(Json::Odd),
        Json::Text(text) => Ok(Json::Text(text.copy(alloc)?)),
        Json::List(items) => Ok(Json::List(copied_items(alloc, items.as_slice())?)),
        Json::Object(members) => Ok(Json::Object(copied_members(alloc, members.as_slice())?)),
    }
}

#[cycle(copied)]
fn copied_items(alloc: Global, items: &[Json]) -> Result<Seq<Json>, Memory>
    ensures { IfOk result (λ copy. copy ≡ items.now) }
{
    let mut copies = Seq::new(alloc);
    for item in items {
        copies.push(copied(alloc, item)?)?;
    }
    Ok(copies)
}

#[cycle(copied)]
fn copied_members(alloc: Global, members: &[Member]) -> Result<Seq<Member>, Memory>
    ensures { IfOk result (λ copy. copy ≡ members.now) }
{
    let mut copies = Seq::new(alloc);
    for member in members {
        copies.push(copied_member(alloc, member)?)?;
    }
    Ok(copies)
}

#[cycle(copied)]
fn copied_member(alloc: Global, member: &Member) -> Result<Member, Memory>
    ensures { IfOk result (λ copy. copy ≡ member.now) }
{
    let name = member.name.copy(alloc)?;
    let value = copied(alloc, &member.value)?;
    Ok(Member { name, value })
}
