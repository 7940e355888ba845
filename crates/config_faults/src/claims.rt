// Claims of the node itself (OpenID Federation 1.0 sections 3.1.1 and 3.1.2).

use crate::fault::Kind;
use crate::forms::Form;
use crate::keys::keys_in;
use crate::places::{
    hold, identifier_at, identifier_in, item_at, items_at, members_at, text_in, texts_at, under,
};
use crate::stop::{Stop, fault};
use fed_json::{Json, is_null};
use std::alloc::Global;

// How many superiors a configuration names at most.
const MOST_HINTS: usize = 32;

/// Stops where what stands at the place isn't metadata.
pub(crate) fn metadata_at(alloc: Global, place: &[u8], tree: &Json) -> Result<(), Stop> {
    for entity_type in members_at(alloc, place, Form::Metadata, tree)? {
        let at = under(alloc, place, entity_type.name.as_slice())?;
        parameters_at(alloc, at.as_slice(), &entity_type.value)?;
    }
    Ok(())
}

fn parameters_at(alloc: Global, place: &[u8], tree: &Json) -> Result<(), Stop> {
    for parameter in members_at(alloc, place, Form::Parameters, tree)? {
        if is_null(&parameter.value) {
            let at = under(alloc, place, parameter.name.as_slice())?;
            hold(alloc, at.as_slice(), Form::Value, &parameter.value, false)?;
        }
    }
    Ok(())
}

/// Stops where what stands at the place isn't a list of superiors.
pub(crate) fn hints_at(alloc: Global, place: &[u8], tree: &Json) -> Result<(), Stop> {
    let hints = items_at(alloc, place, Form::Hints, tree)?;
    if hints.is_empty() || hints.len() > MOST_HINTS {
        let kind = Kind::Count(Form::Hints, hints.len() as u64);
        return Err(fault(alloc, place, kind));
    }
    for (index, hint) in hints.iter().enumerate() {
        let at = item_at(alloc, place, index)?;
        identifier_at(alloc, at.as_slice(), hint)?;
    }
    Ok(())
}

/// Stops where what stands at the place isn't a list of trust marks.
pub(crate) fn marks_at(alloc: Global, place: &[u8], tree: &Json) -> Result<(), Stop> {
    for (index, mark) in items_at(alloc, place, Form::Marks, tree)?
        .iter()
        .enumerate()
    {
        let at = item_at(alloc, place, index)?;
        mark_at(alloc, at.as_slice(), mark)?;
    }
    Ok(())
}

fn mark_at(alloc: Global, place: &[u8], tree: &Json) -> Result<(), Stop> {
    let members = members_at(alloc, place, Form::Mark, tree)?;
    text_in(alloc, place, members, b"trust_mark_type", Form::Text)?;
    text_in(alloc, place, members, b"trust_mark", Form::Text)
}

/// Stops where what stands at the place doesn't say who may issue trust marks, type by type.
pub(crate) fn issuers_at(alloc: Global, place: &[u8], tree: &Json) -> Result<(), Stop> {
    for issuers in members_at(alloc, place, Form::Issuers, tree)? {
        let at = under(alloc, place, issuers.name.as_slice())?;
        texts_at(alloc, at.as_slice(), &issuers.value)?;
    }
    Ok(())
}

/// Stops where what stands at the place doesn't say who owns types of trust marks.
pub(crate) fn owners_at(alloc: Global, place: &[u8], tree: &Json) -> Result<(), Stop> {
    for owner in members_at(alloc, place, Form::Owners, tree)? {
        let at = under(alloc, place, owner.name.as_slice())?;
        owner_at(alloc, at.as_slice(), &owner.value)?;
    }
    Ok(())
}

fn owner_at(alloc: Global, place: &[u8], tree: &Json) -> Result<(), Stop> {
    let members = members_at(alloc, place, Form::Owner, tree)?;
    identifier_in(alloc, place, members, b"sub")?;
    keys_in(alloc, place, members, b"jwks")
}
