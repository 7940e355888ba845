// What a reply says beside its chain.

ghost use Rattle.std.specs.Prelude.{◌≡◌, ◌↔◌, IsTrue, Some};
ghost use Rattle.fed_json.specs.Trees.{find as value_at, object_members};
ghost use Rattle.reply_check.specs.Stages.{IsSaidFault};
ghost use Rattle.reply_check.specs.Verdicts.{AreWithin};

use crate::verdict::ReplyReason;
use chain_check::Resolved;
use fed_json::{Json, Member, find, json_equal, object_members};
use resolve_reply::Said;

/// The first reason for which what is said isn't what the chain resolves to.
pub(crate) fn said_fault(said: &Said, resolved: &Resolved) -> Option<ReplyReason>
    ensures { IsSaidFault said.now resolved.now result }
{
    if !(said.sub == resolved.leaf) {
        Some(ReplyReason::Subject)
    } else if !says_metadata(&said.metadata, &resolved.metadata) {
        Some(ReplyReason::Metadata)
    } else if resolved.exp < said.exp {
        Some(ReplyReason::End)
    } else {
        None
    }
}

// Whether the first tree has, for each entity type that it carries, what the second has.
fn says_metadata(carried: &Json, metadata: &Json) -> bool
    ensures { IsTrue result ↔ AreWithin (object_members carried.now) (object_members metadata.now) }
{
    are_within(object_members(carried), object_members(metadata))
}

// Whether each of the first members stands among the others.
fn are_within(carried: &[Member], members: &[Member]) -> bool
    ensures { IsTrue result ↔ AreWithin carried.now members.now }
{
    for place in 0..carried.len() {
        if !is_among(&carried[place], members) {
            return false;
        }
    }
    true
}

// Whether the value of that name is the member's.
fn is_among(member: &Member, members: &[Member]) -> bool
    ensures { IsTrue result ↔ (value_at member.now.name members.now ≡ Some member.now.value) }
{
    match find(members, member.name.as_slice()) {
        Some(value) => json_equal(value, &member.value),
        None => false,
    }
}
