// The parts of constraints, as their object tells them.

ghost use Rattle.std.specs.Prelude.{◌^◌};
ghost use Rattle.fed_json.specs.Trees.{as_object, count_below as count_in, find as value_at, optional, texts_of};
ghost use Rattle.chain_limits.specs.Reading.{Reads, ReadsBy, naming_in};

use crate::shape::LimitShape;
use fed_base::{Seq, Text};
use fed_json::{Json, Member, copied_texts, count_below, find};
use std::alloc::Global;

// What a number of entities is below (section 6.2.1).
const COUNTS: u64 = 1 << 32;

/// The members of an object.
pub(crate) fn object(tree: &Json) -> Result<&[Member], LimitShape>
    ensures { ReadsBy (λ members. members.now) result (as_object tree.now) }
{
    match tree {
        Json::Object(members) => Ok(members.as_slice()),
        _ => Err(LimitShape::Shape),
    }
}

/// The members of the naming constraints; none where these are missing.
pub(crate) fn naming(members: &[Member]) -> Result<&[Member], LimitShape>
    ensures { ReadsBy (λ members. members.now) result (naming_in members.now) }
{
    match find(members, b"naming_constraints") {
        Some(tree) => object(tree),
        None => Ok(&[]),
    }
}

/// The whole number below 2^32 under the name, if one is there.
pub(crate) fn count(members: &[Member], name: &[u8]) -> Result<Option<u64>, LimitShape>
    ensures { Reads result (optional (count_in (2 ^ 32)) (value_at name.now members.now)) }
{
    let Some(tree) = find(members, name) else {
        return Ok(None);
    };
    match count_below(tree, COUNTS) {
        Some(n) => Ok(Some(n)),
        None => Err(LimitShape::Shape),
    }
}

/// The list of texts under the name, if one is there.
pub(crate) fn texts(
    alloc: Global,
    members: &[Member],
    name: &[u8],
) -> Result<Option<Seq<Text>>, LimitShape>
    ensures { Reads result (optional texts_of (value_at name.now members.now)) }
{
    let Some(tree) = find(members, name) else {
        return Ok(None);
    };
    match copied_texts(alloc, tree)? {
        Some(texts) => Ok(Some(texts)),
        None => Err(LimitShape::Shape),
    }
}
