// What the operators make of one parameter.

ghost use Rattle.std.specs.Prelude.{◌≡◌, IfOk, option_map};
ghost use Rattle.std.specs.Option.{option_copied};
ghost use Rattle.std.specs.List.{join_with_byte};
ghost use Rattle.fed_json.specs.Trees.{texts_in};
ghost use Rattle.fed_base.specs.Values.{if_there};
ghost use Rattle.policy_apply.specs.Acting.{Gives, acted as acted_on, by_value as value_by, by_add as add_by, by_default as default_by, by_one_of as one_of_by, by_subset_of as subset_of_by, by_superset_of as superset_of_by, by_essential as essential_by, made as made_of, stays_text as text_stays, with_added as added_to, with_kept as kept_of, is_one_of as one_of_passes, is_superset_of as superset_of_passes, is_enough as essential_passes};

use crate::stop::Stop;
use fed_base::{Duplicate, Memory, Seq, Text};
use fed_json::{Json, includes_each, intersect, is_member, union};
use policy_merge::{Operator, Operators, is_scope, members, words_in};
use std::alloc::Global;

/// What the operators make of the parameter: its value, if any, or the first that refuses. They act in the order
/// value, add, default, one_of, subset_of, superset_of, essential.
#[tactic(auto, unfolding(crate::specs::Acting::acted))]
pub(crate) fn acted(
    alloc: Global,
    name: &Text,
    operators: &Operators,
    value: Option<&Json>,
) -> Result<Option<Json>, Stop>
    ensures { Gives result (acted_on name.now operators.now (option_copied value.entry)) }
{
    let value = by_value(alloc, operators, value)?;
    let value = by_add(alloc, name, operators, value)?;
    let value = by_default(alloc, operators, value)?;
    let value = by_one_of(operators, value)?;
    let value = by_subset_of(alloc, name, operators, value)?;
    let value = by_superset_of(alloc, name, operators, value)?;
    by_essential(operators, value)
}

#[tactic(auto, unfolding(crate::specs::Acting::by_value))]
fn by_value(
    alloc: Global,
    operators: &Operators,
    value: Option<&Json>,
) -> Result<Option<Json>, Stop>
    ensures { Gives result (value_by operators.now (option_copied value.entry)) }
{
    match (&operators.value, value) {
        (Some(Json::Null), _) => Ok(None),
        (Some(set), _) => Ok(Some(set.copy(alloc)?)),
        (None, Some(value)) => Ok(Some(value.copy(alloc)?)),
        (None, None) => Ok(None),
    }
}

#[tactic(auto, unfolding(crate::specs::Acting::by_add))]
fn by_add(
    alloc: Global,
    name: &Text,
    operators: &Operators,
    value: Option<Json>,
) -> Result<Option<Json>, Stop>
    ensures { Gives result (add_by name.now operators.now value) }
{
    match &operators.add {
        Some(list) => with_added(alloc, name, list, value.as_ref()),
        None => Ok(value),
    }
}

// The list, added to the members of the value, if any.
fn with_added(
    alloc: Global,
    name: &Text,
    list: &Seq<Json>,
    value: Option<&Json>,
) -> Result<Option<Json>, Stop>
    ensures { Gives result (added_to name.now list.now (option_copied value.entry)) }
{
    let Some(value) = value else {
        let list = union(alloc, list, &Seq::new(alloc))?;
        return made(alloc, name, Operator::Add, None, list);
    };
    let words = words_in(alloc, name, value)?;
    match members(words.as_ref(), value) {
        Some(members) => {
            let list = union(alloc, members, list)?;
            made(alloc, name, Operator::Add, Some(value), list)
        }
        None => Err(Stop::Refused(Operator::Add)),
    }
}

#[tactic(auto, unfolding(crate::specs::Acting::by_default))]
fn by_default(
    alloc: Global,
    operators: &Operators,
    value: Option<Json>,
) -> Result<Option<Json>, Stop>
    ensures { Gives result (default_by operators.now value) }
{
    match (value, &operators.default) {
        (Some(value), _) => Ok(Some(value)),
        (None, Some(default)) => Ok(Some(default.copy(alloc)?)),
        (None, None) => Ok(None),
    }
}

#[tactic(auto, unfolding(crate::specs::Acting::by_one_of))]
fn by_one_of(operators: &Operators, value: Option<Json>) -> Result<Option<Json>, Stop>
    ensures { Gives result (one_of_by operators.now value) }
{
    if is_one_of(&operators.one_of, value.as_ref()) {
        Ok(value)
    } else {
        Err(Stop::Refused(Operator::OneOf))
    }
}

fn is_one_of(list: &Option<Seq<Json>>, value: Option<&Json>) -> bool
    ensures { result ≡ one_of_passes list.now (option_copied value.entry) }
{
    match (list, value) {
        (Some(list), Some(value)) => is_member(list, value),
        _ => true,
    }
}

#[tactic(auto, unfolding(crate::specs::Acting::by_subset_of))]
fn by_subset_of(
    alloc: Global,
    name: &Text,
    operators: &Operators,
    value: Option<Json>,
) -> Result<Option<Json>, Stop>
    ensures { Gives result (subset_of_by name.now operators.now value) }
{
    match &operators.subset_of {
        Some(list) => with_kept(alloc, name, list, value.as_ref()),
        None => Ok(value),
    }
}

// The members of the value, if any, that are in the list.
fn with_kept(
    alloc: Global,
    name: &Text,
    list: &Seq<Json>,
    value: Option<&Json>,
) -> Result<Option<Json>, Stop>
    ensures { Gives result (kept_of name.now list.now (option_copied value.entry)) }
{
    let Some(value) = value else {
        return Ok(None);
    };
    let words = words_in(alloc, name, value)?;
    match members(words.as_ref(), value) {
        Some(members) => {
            let list = intersect(alloc, members, list)?;
            made(alloc, name, Operator::SubsetOf, Some(value), list)
        }
        None => Err(Stop::Refused(Operator::SubsetOf)),
    }
}

#[tactic(auto, unfolding(crate::specs::Acting::by_superset_of))]
fn by_superset_of(
    alloc: Global,
    name: &Text,
    operators: &Operators,
    value: Option<Json>,
) -> Result<Option<Json>, Stop>
    ensures { Gives result (superset_of_by name.now operators.now value) }
{
    if is_superset_of(alloc, name, &operators.superset_of, value.as_ref())? {
        Ok(value)
    } else {
        Err(Stop::Refused(Operator::SupersetOf))
    }
}

fn is_superset_of(
    alloc: Global,
    name: &Text,
    list: &Option<Seq<Json>>,
    value: Option<&Json>,
) -> Result<bool, Memory>
    ensures { IfOk result (λ passes. passes ≡ superset_of_passes name.now list.now (option_copied value.entry)) }
{
    let (Some(list), Some(value)) = (list, value) else {
        return Ok(true);
    };
    let words = words_in(alloc, name, value)?;
    match members(words.as_ref(), value) {
        Some(members) => includes_each(alloc, members, list),
        None => Ok(false),
    }
}

#[tactic(auto, unfolding(crate::specs::Acting::by_essential))]
fn by_essential(operators: &Operators, value: Option<Json>) -> Result<Option<Json>, Stop>
    ensures { Gives result (essential_by operators.now value) }
{
    if is_enough(operators.essential, value.as_ref()) {
        Ok(value)
    } else {
        Err(Stop::Refused(Operator::Essential))
    }
}

fn is_enough(essential: Option<bool>, value: Option<&Json>) -> bool
    ensures { result ≡ essential_passes essential (option_copied value.entry) }
{
    essential != Some(true) || value.is_some()
}

// The list as the parameter's new value, where `before` is the one it had.
#[tactic(auto, unfolding(crate::specs::Acting::made))]
fn made(
    alloc: Global,
    name: &Text,
    operator: Operator,
    before: Option<&Json>,
    list: Seq<Json>,
) -> Result<Option<Json>, Stop>
    ensures { Gives result (made_of name.now operator (option_copied before.entry) list) }
{
    if !stays_text(name, before) {
        return Ok(Some(Json::List(list)));
    }
    match joined(alloc, list.as_slice())? {
        Some(text) => Ok(Some(Json::Text(text))),
        None => Err(Stop::Refused(operator)),
    }
}

fn stays_text(name: &Text, before: Option<&Json>) -> bool
    ensures { result ≡ text_stays name.now (option_copied before.entry) }
{
    is_scope(name) && matches!(before, None | Some(Json::Text(_)))
}

// The texts with one space between them, where each value of the list is a text.
fn joined(alloc: Global, list: &[Json]) -> Result<Option<Text>, Memory>
    ensures { IfOk result (λ text. text ≡ option_map (join_with_byte 32) (texts_in list.now)) }
{
    let mut text = Text::new(alloc);
    for word in list {
        let Json::Text(word) = word else {
            return Ok(None);
        };
        text.append(word.as_slice())?;
        text.push(b' ')?;
    }
    text.pop();
    Ok(Some(text))
}
