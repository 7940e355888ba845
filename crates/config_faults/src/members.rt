// The members of a configuration.

use crate::claims::{hints_at, issuers_at, marks_at, metadata_at, owners_at};
use crate::entities::subordinates_at;
use crate::forms::Form;
use crate::places::{identifier_in, members_at, number_in, text_in, texts_at, whole_at};
use crate::resolving::resolver_at;
use crate::stop::Stop;
use fed_json::{Json, Member, find, text_at};
use std::alloc::Global;

/// Stops where the member of that name isn't of its form.
pub(crate) fn member_in(alloc: Global, config: &Json, name: &[u8]) -> Result<(), Stop> {
    let members = members_at(alloc, b"", Form::Configuration, config)?;
    if name == b"entity_id".as_slice() {
        identifier_in(alloc, b"", members, name)
    } else if name == b"ring".as_slice() {
        text_in(alloc, b"", members, name, Form::RingName)
    } else if name == b"lifetime".as_slice() {
        number_in(alloc, b"", members, name, 60, 31_536_000)
    } else {
        possible_in(alloc, members, name)
    }
}

// The same of a member that may be absent.
fn possible_in(alloc: Global, members: &[Member], name: &[u8]) -> Result<(), Stop> {
    let Some(tree) = find(members, name) else {
        return Ok(());
    };
    if name == b"subordinates".as_slice() {
        subordinates_at(alloc, name, tree, node_in(members))
    } else if name == b"revoked_marks".as_slice() {
        texts_at(alloc, name, tree)
    } else if name == b"resolver".as_slice() {
        resolver_at(alloc, name, tree)
    } else {
        claim_at(alloc, name, tree)?;
        whole_at(alloc, name, tree)
    }
}

// The identifier of the node, or nothing.
fn node_in(members: &[Member]) -> &[u8] {
    match text_at(members, b"entity_id") {
        Some(id) => id.as_slice(),
        None => b"",
    }
}

// A claim of the node's own configuration.
fn claim_at(alloc: Global, name: &[u8], tree: &Json) -> Result<(), Stop> {
    if name == b"metadata".as_slice() {
        metadata_at(alloc, name, tree)
    } else if name == b"authority_hints".as_slice() {
        hints_at(alloc, name, tree)
    } else if name == b"trust_marks".as_slice() {
        marks_at(alloc, name, tree)
    } else if name == b"trust_mark_issuers".as_slice() {
        issuers_at(alloc, name, tree)
    } else {
        owners_at(alloc, name, tree)
    }
}
