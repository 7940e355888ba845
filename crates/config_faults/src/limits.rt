// Constraints (OpenID Federation 1.0 section 6.2).

use crate::forms::Form;
use crate::places::{members_at, possible_number, possible_texts, under};
use crate::stop::Stop;
use fed_json::{Json, find};
use std::alloc::Global;

/// Stops where what stands at the place isn't a set of constraints.
pub(crate) fn constraints_at(alloc: Global, place: &[u8], tree: &Json) -> Result<(), Stop> {
    let members = members_at(alloc, place, Form::Constraints, tree)?;
    possible_number(alloc, place, members, b"max_path_length", 0, 4_294_967_295)?;
    if let Some(naming) = find(members, b"naming_constraints") {
        let at = under(alloc, place, b"naming_constraints")?;
        naming_at(alloc, at.as_slice(), naming)?;
    }
    possible_texts(alloc, place, members, b"allowed_entity_types")
}

fn naming_at(alloc: Global, place: &[u8], tree: &Json) -> Result<(), Stop> {
    let members = members_at(alloc, place, Form::Naming, tree)?;
    possible_texts(alloc, place, members, b"permitted")?;
    possible_texts(alloc, place, members, b"excluded")
}
