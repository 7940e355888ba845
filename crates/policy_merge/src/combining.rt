// Which operators stand together.

ghost use Rattle.std.specs.Prelude.{◌≡◌, ℕ, List, Option, IfOk, true, not};
ghost use Rattle.std.specs.List.{find};
ghost use Rattle.fed_json.specs.declared.tree.Json.{Json as Tree};
ghost use Rattle.std.specs.Option.{option_copied, option_and_then, option_map_or};
ghost use Rattle.fed_json.specs.Sets.{is_among};
ghost use Rattle.fed_base.specs.Answers.{unless};
ghost use Rattle.policy_merge.specs.Combining.{Gives, IsFault, conflict_at, conflict_in, conflict_in_parameters, stand as stands, clash as clash_of, have_members, if_both};
ghost use Rattle.fed_json.specs.Sets.{are_among};
ghost use Rattle.policy_merge.specs.Scope.{members_of, words_in as words_of};
ghost use Rattle.fed_json.specs.Trees.{is_null as null_tree};

use crate::fault::PolicyFault;
use crate::operator::Operator;
use crate::operators::Operators;
use crate::scope::{members, words_in};
use fed_base::{Duplicate, Memory, Seq, Text};
use fed_json::{Json, Named, includes_each, is_member, is_null};
use std::alloc::Global;

// The pairs that may not stand together, in the order in which a conflict is named.
const PAIRS: [(Operator, Operator); 15] = [
    (Operator::OneOf, Operator::OneOf),
    (Operator::Value, Operator::Add),
    (Operator::Value, Operator::Default),
    (Operator::Value, Operator::OneOf),
    (Operator::Value, Operator::SubsetOf),
    (Operator::Value, Operator::SupersetOf),
    (Operator::Value, Operator::Essential),
    (Operator::Add, Operator::OneOf),
    (Operator::Add, Operator::SubsetOf),
    (Operator::Default, Operator::OneOf),
    (Operator::Default, Operator::SubsetOf),
    (Operator::Default, Operator::SupersetOf),
    (Operator::OneOf, Operator::SubsetOf),
    (Operator::OneOf, Operator::SupersetOf),
    (Operator::SubsetOf, Operator::SupersetOf),
];

/// The first two operators of the parameter that don't stand together.
pub(crate) fn clash(
    alloc: Global,
    name: &Text,
    operators: &Operators,
) -> Result<Option<(Operator, Operator)>, Memory>
    ensures { IfOk result (λ pair. pair ≡ clash_of name.now operators.now) }
{
    let value_words = given_words(alloc, name, &operators.value)?;
    let default_words = given_words(alloc, name, &operators.default)?;
    let value_members = given_members(&value_words, &operators.value);
    let default_members = given_members(&default_words, &operators.default);
    first_apart(alloc, operators, value_members, default_members, &PAIRS)
}

fn first_apart(
    alloc: Global,
    operators: &Operators,
    value_members: Option<&Seq<Json>>,
    default_members: Option<&Seq<Json>>,
    pairs: &[(Operator, Operator)],
) -> Result<Option<(Operator, Operator)>, Memory>
    ensures { IfOk result (λ found. found ≡ find (λ pair. not (stands (record {
      operators = operators.now;
      value_members = option_copied value_members.entry;
      default_members = option_copied default_members.entry;
    }) pair.0 pair.1)) pairs.now) }
{
    for (first, second) in pairs {
        if !stand(
            alloc,
            operators,
            value_members,
            default_members,
            *first,
            *second,
        )? {
            return Ok(Some((*first, *second)));
        }
    }
    Ok(None)
}

/// Whether the operators of each parameter stand together, else the first conflict.
pub(crate) fn types_combined(
    alloc: Global,
    types: &[Named<Seq<Named<Operators>>>],
) -> Result<(), PolicyFault>
    ensures { Gives result (unless (conflict_in types.now) tt) }
{
    for entity_type in types {
        parameters_combined(alloc, &entity_type.name, entity_type.value.as_slice())?;
    }
    Ok(())
}

fn parameters_combined(
    alloc: Global,
    entity_type: &Text,
    parameters: &[Named<Operators>],
) -> Result<(), PolicyFault>
    ensures { Gives result (unless (conflict_in_parameters entity_type.now parameters.now) tt) }
{
    for parameter in parameters {
        if let Some((first, second)) = clash(alloc, &parameter.name, &parameter.value)? {
            return Err(conflict(alloc, entity_type, &parameter.name, first, second));
        }
    }
    Ok(())
}

/// The fault that names two operators of a parameter, or `Memory`.
pub(crate) fn conflict(
    alloc: Global,
    entity_type: &Text,
    parameter: &Text,
    first: Operator,
    second: Operator,
) -> PolicyFault
    ensures { IsFault result (conflict_at entity_type.now parameter.now (first, second)) }
{
    match (entity_type.copy(alloc), parameter.copy(alloc)) {
        (Ok(entity_type), Ok(parameter)) => PolicyFault::Conflict {
            entity_type,
            parameter,
            first,
            second,
        },
        _ => PolicyFault::Memory,
    }
}

fn given_words(
    alloc: Global,
    name: &Text,
    value: &Option<Json>,
) -> Result<Option<Seq<Json>>, Memory>
    ensures { IfOk result (λ words. words ≡ option_and_then (words_of name.now) value.now) }
{
    match value {
        Some(value) => words_in(alloc, name, value),
        None => Ok(None),
    }
}

fn given_members<'a>(words: &'a Option<Seq<Json>>, value: &'a Option<Json>) -> Option<&'a Seq<Json>>
    ensures { (name : List ℕ) → words.now ≡ option_and_then (words_of name) value.now
        → option_copied result ≡ option_and_then (members_of name) value.now }
{
    match value {
        Some(value) => members(words.as_ref(), value),
        None => None,
    }
}

// Whether the two operators stand together. The members are those of `value` and of `default`.
#[tactic(auto, unfolding(crate::specs::Combining::stand))]
fn stand(
    alloc: Global,
    operators: &Operators,
    value_members: Option<&Seq<Json>>,
    default_members: Option<&Seq<Json>>,
    first: Operator,
    second: Operator,
) -> Result<bool, Memory>
    ensures { IfOk result (λ together. together ≡ stands (record {
      operators = operators.now;
      value_members = option_copied value_members.entry;
      default_members = option_copied default_members.entry;
    }) first second) }
{
    match (first, second) {
        (Operator::Value, _) => value_stands(alloc, operators, value_members, second),
        (Operator::Default, _) => default_stands(alloc, operators, default_members, second),
        (Operator::Add, Operator::SubsetOf) => lists_stand(
            alloc,
            &operators.subset_of,
            &operators.add,
        ),
        (Operator::SubsetOf, Operator::SupersetOf) => lists_stand(
            alloc,
            &operators.subset_of,
            &operators.superset_of,
        ),
        (Operator::OneOf, Operator::OneOf) => match &operators.one_of {
            Some(list) => Ok(!list.is_empty()),
            None => Ok(true),
        },
        (Operator::Add, Operator::OneOf) => Ok(
            operators.add.is_none() || operators.one_of.is_none(),
        ),
        (Operator::OneOf, Operator::SubsetOf) => Ok(
            operators.one_of.is_none() || operators.subset_of.is_none(),
        ),
        (Operator::OneOf, Operator::SupersetOf) => Ok(
            operators.one_of.is_none() || operators.superset_of.is_none(),
        ),
        _ => Ok(true),
    }
}

#[tactic(auto, unfolding(crate::specs::Combining::stand))]
fn value_stands(
    alloc: Global,
    operators: &Operators,
    members: Option<&Seq<Json>>,
    second: Operator,
) -> Result<bool, Memory>
    ensures { (others : Option (List Tree)) → IfOk result (λ together. together ≡ stands (record {
      operators = operators.now;
      value_members = option_copied members.entry;
      default_members = others;
    }) Operator.Value second) }
{
    let Some(value) = &operators.value else {
        return Ok(true);
    };
    match second {
        Operator::Add => has_all(alloc, members, &operators.add),
        Operator::Default => Ok(!is_null(value) || operators.default.is_none()),
        Operator::OneOf => match &operators.one_of {
            Some(list) => Ok(!is_null(value) && is_member(list, value)),
            None => Ok(true),
        },
        Operator::SubsetOf => all_in(alloc, members, &operators.subset_of),
        Operator::SupersetOf => has_all(alloc, members, &operators.superset_of),
        Operator::Essential => Ok(!is_null(value) || operators.essential != Some(true)),
        Operator::Value => Ok(true),
    }
}

#[tactic(auto, unfolding(crate::specs::Combining::stand))]
fn default_stands(
    alloc: Global,
    operators: &Operators,
    members: Option<&Seq<Json>>,
    second: Operator,
) -> Result<bool, Memory>
    ensures { (others : Option (List Tree)) → IfOk result (λ together. together ≡ stands (record {
      operators = operators.now;
      value_members = others;
      default_members = option_copied members.entry;
    }) Operator.Default second) }
{
    let Some(default) = &operators.default else {
        return Ok(true);
    };
    match second {
        Operator::OneOf => match &operators.one_of {
            Some(list) => Ok(is_member(list, default)),
            None => Ok(true),
        },
        Operator::SubsetOf => all_in(alloc, members, &operators.subset_of),
        Operator::SupersetOf => has_all(alloc, members, &operators.superset_of),
        _ => Ok(true),
    }
}

fn lists_stand(
    alloc: Global,
    list: &Option<Seq<Json>>,
    part: &Option<Seq<Json>>,
) -> Result<bool, Memory>
    ensures { IfOk result (λ together. together ≡ if_both are_among list.now part.now) }
{
    match (list, part) {
        (Some(list), Some(part)) => includes_each(alloc, list, part),
        _ => Ok(true),
    }
}

// Whether there are members, and each value of the part is one of them.
fn has_all(
    alloc: Global,
    members: Option<&Seq<Json>>,
    part: &Option<Seq<Json>>,
) -> Result<bool, Memory>
    ensures { IfOk result (λ all. all ≡ option_map_or (λ part. have_members (λ members. are_among members part) (option_copied members.entry)) part.now true) }
{
    match (members, part) {
        (_, None) => Ok(true),
        (Some(members), Some(part)) => includes_each(alloc, members, part),
        (None, Some(_)) => Ok(false),
    }
}

// Whether there are members, and each of them is in the list.
fn all_in(
    alloc: Global,
    members: Option<&Seq<Json>>,
    list: &Option<Seq<Json>>,
) -> Result<bool, Memory>
    ensures { IfOk result (λ all. all ≡ option_map_or (λ list. have_members (λ members. are_among list members) (option_copied members.entry)) list.now true) }
{
    match (members, list) {
        (_, None) => Ok(true),
        (Some(members), Some(list)) => includes_each(alloc, list, members),
        (None, Some(_)) => Ok(false),
    }
}
