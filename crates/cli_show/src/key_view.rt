// Trees with keys as they are shown.

ghost use Rattle.std.specs.Prelude.{◌≡◌, ◌++◌, filter, map, IfOk, OnOk};
ghost use Rattle.fed_json.specs.Reading.{member_of};
ghost use Rattle.cli_show.specs.KeyViews.{is_told, key_view, members_view, thumbprint_members, view};

use crate::thumbprints::thumbprint_in;
use fed_base::{Duplicate, Memory, Seq, Text};
use fed_json::{Json, Member, text_at, text_member};
use std::alloc::Global;

/// The tree, in which of each key stands what is shown.
#[cycle(viewed)]
pub(crate) fn viewed(alloc: Global, tree: &Json) -> Result<Json, Memory>
    ensures { IfOk result (λ seen. seen ≡ view tree.now) }
{
    match tree {
        Json::Null => Ok(Json::Null),
        Json::Bool(b) => Ok(Json::Bool(*b)),
        Json::Int(n) => Ok(Json::Int(*n)),
        Json::Odd => Ok(Json::Odd),
        Json::Text(text) => Ok(Json::Text(text.copy(alloc)?)),
        Json::List(items) => Ok(Json::List(viewed_items(alloc, items.as_slice())?)),
        Json::Object(members) => Ok(Json::Object(members_view(
            alloc,
            viewed_members(alloc, members.as_slice())?,
        )?)),
    }
}

#[cycle(viewed)]
fn viewed_items(alloc: Global, items: &[Json]) -> Result<Seq<Json>, Memory>
    ensures { IfOk result (λ seen. seen ≡ map view items.now) }
{
    let mut seen = Seq::new(alloc);
    for item in items {
        seen.push(viewed(alloc, item)?)?;
    }
    Ok(seen)
}

#[cycle(viewed)]
fn viewed_members(alloc: Global, members: &[Member]) -> Result<Seq<Member>, Memory>
    ensures { IfOk result (λ seen. seen ≡ map (λ m. member_of m.name (view m.value)) members.now) }
{
    let mut seen = Seq::new(alloc);
    for member in members {
        seen.push(viewed_member(alloc, member)?)?;
    }
    Ok(seen)
}

#[cycle(viewed)]
fn viewed_member(alloc: Global, member: &Member) -> Result<Member, Memory>
    ensures { IfOk result (λ seen. seen ≡ member_of member.now.name (view member.now.value)) }
{
    let name = member.name.copy(alloc)?;
    let value = viewed(alloc, &member.value)?;
    Ok(Member { name, value })
}

// The members of an object, as they are shown.
#[tactic(auto, unfolding(crate::specs::KeyViews::members_view))]
fn members_view(alloc: Global, members: Seq<Member>) -> Result<Seq<Member>, Memory>
    ensures { IfOk result (λ seen. seen ≡ members_view members) }
{
    match text_at(members.as_slice(), b"kty") {
        Some(_) => key_view(alloc, members.as_slice()),
        None => Ok(members),
    }
}

// What is shown of a key with these members.
#[tactic(auto, unfolding(crate::specs::KeyViews::key_view))]
fn key_view(alloc: Global, members: &[Member]) -> Result<Seq<Member>, Memory>
    ensures { IfOk result (λ seen. seen ≡ key_view members.now) }
{
    let thumbprint = thumbprint_in(alloc, members)?;
    let mut seen = told_members(alloc, members)?;
    add_thumbprint(alloc, &mut seen, thumbprint)?;
    Ok(seen)
}

// The thumbprint as a member, where there is one.
fn add_thumbprint(
    alloc: Global,
    members: &mut Seq<Member>,
    thumbprint: Option<Text>,
) -> Result<(), Memory>
    ensures { OnOk result (members.new ≡ members.old ++ thumbprint_members thumbprint) }
{
    match thumbprint {
        Some(text) => members.push(text_member(alloc, b"thumbprint", text.as_slice())?),
        None => Ok(()),
    }
}

fn told_members(alloc: Global, members: &[Member]) -> Result<Seq<Member>, Memory>
    ensures { IfOk result (λ told. told ≡ filter (λ m. is_told m.name) members.now) }
{
    let mut told = Seq::new(alloc);
    for member in members {
        if is_told(member.name.as_slice()) {
            told.push(member.copy(alloc)?)?;
        }
    }
    Ok(told)
}

// Whether the member of that name of a key is shown.
fn is_told(name: &[u8]) -> bool
    ensures { result ≡ is_told name.now }
{
    name == b"alg".as_slice()
        || name == b"crv".as_slice()
        || name == b"exp".as_slice()
        || name == b"iat".as_slice()
        || name == b"kid".as_slice()
        || name == b"kty".as_slice()
        || name == b"nbf".as_slice()
        || name == b"revoked".as_slice()
        || name == b"use".as_slice()
}
