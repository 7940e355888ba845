// Policies (OpenID Federation 1.0 section 6.1).

use crate::forms::Form;
use crate::places::{hold, item_at, items_at, members_at, under};
use crate::stop::{Stop, other};
use entity_statement::is_operator;
use fed_json::{Json, Member, find, is_null};
use policy_merge::{OPERATORS, Operator};
use std::alloc::Global;

/// Stops where what stands at the place isn't a policy.
pub(crate) fn policy_at(alloc: Global, place: &[u8], tree: &Json) -> Result<(), Stop> {
    for entity_type in members_at(alloc, place, Form::Policy, tree)? {
        let at = under(alloc, place, entity_type.name.as_slice())?;
        type_at(alloc, at.as_slice(), &entity_type.value)?;
    }
    Ok(())
}

fn type_at(alloc: Global, place: &[u8], tree: &Json) -> Result<(), Stop> {
    for parameter in members_at(alloc, place, Form::PolicyParameters, tree)? {
        let at = under(alloc, place, parameter.name.as_slice())?;
        parameter_at(alloc, at.as_slice(), &parameter.value)?;
    }
    Ok(())
}

fn parameter_at(alloc: Global, place: &[u8], tree: &Json) -> Result<(), Stop> {
    let members = members_at(alloc, place, Form::Operators, tree)?;
    for operator in OPERATORS {
        operator_in(alloc, place, members, operator)?;
    }
    Ok(())
}

// The operator, where the members have it. Others are left unread.
fn operator_in(
    alloc: Global,
    place: &[u8],
    members: &[Member],
    operator: Operator,
) -> Result<(), Stop> {
    let name = operator.name().as_bytes();
    match find(members, name) {
        Some(value) => {
            let place = under(alloc, place, name)?;
            value_at(alloc, place.as_slice(), operator, value)
        }
        None => Ok(()),
    }
}

fn value_at(alloc: Global, place: &[u8], operator: Operator, value: &Json) -> Result<(), Stop> {
    match operator {
        Operator::Value => Ok(()),
        Operator::Default => hold(alloc, place, Form::Value, value, !is_null(value)),
        Operator::Essential => hold(alloc, place, Form::Truth, value, is_truth(value)),
        Operator::Add | Operator::OneOf | Operator::SubsetOf | Operator::SupersetOf => hold(
            alloc,
            place,
            Form::Values,
            value,
            is_list(value),
        ),
    }
}

pub(crate) fn is_truth(tree: &Json) -> bool {
    matches!(tree, Json::Bool(_))
}

fn is_list(tree: &Json) -> bool {
    matches!(tree, Json::List(_))
}

/// Stops where what stands at the place isn't a list of operators (section 3.1.3, `metadata_policy_crit`).
pub(crate) fn operators_at(alloc: Global, place: &[u8], tree: &Json) -> Result<(), Stop> {
    for (index, item) in items_at(alloc, place, Form::Texts, tree)?
        .iter()
        .enumerate()
    {
        if !names_operator(item) {
            let place = item_at(alloc, place, index)?;
            return Err(other(alloc, place.as_slice(), Form::Operator, item));
        }
    }
    Ok(())
}

fn names_operator(tree: &Json) -> bool {
    match tree {
        Json::Text(name) => is_operator(name.as_slice()),
        _ => false,
    }
}
