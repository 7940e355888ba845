// Two policies as one.

ghost use Rattle.std.specs.Prelude.{◌≡◌, ◌||◌, [], IfOk, IsTrue, OnOk};
ghost use Rattle.std.specs.Option.{option_copied};
ghost use Rattle.fed_json.specs.Sets.{same, union_of, intersection_of};
ghost use Rattle.policy_merge.specs.Policies.{no_operators, types_formed, parameters_formed};
ghost use Rattle.policy_merge.specs.Combining.{Gives, if_both};
ghost use Rattle.policy_merge.specs.Merging.{met, value_or, merged_operators, merging_operators, merging_parameters, merging};

use crate::combining::{clash, conflict};
use crate::fault::PolicyFault;
use crate::operator::Operator;
use crate::operators::Operators;
use crate::tables::add;
use fed_base::{Duplicate, Memory, Seq, Text};
use fed_json::{Json, Named, Sides, intersect, json_equal, union};
use std::alloc::Global;

/// The parameters of an entity type with their operators, in byte order of the parameters' names.
pub type Parameters = Seq<Named<Operators>>;

/// The entity types with their parameters, in byte order of the types' names.
pub type Types = Seq<Named<Parameters>>;

/// The merged entity types, or the first conflict.
pub(crate) fn merge_types(
    alloc: Global,
    upper: &[Named<Parameters>],
    lower: &[Named<Parameters>],
) -> Result<Types, PolicyFault>
    requires upper { IsTrue (types_formed upper.now) }
    requires lower { IsTrue (types_formed lower.now) }
    ensures { Gives result (merging upper.now lower.now) }
{
    let mut merged = Seq::new(alloc);
    let mut sides = Sides { upper, lower };
    while let Some(side) = sides.next() {
        let value = merge_parameters(
            alloc,
            side.name,
            parameters_of(side.upper),
            parameters_of(side.lower),
        )?;
        add(alloc, &mut merged, side.name, value)?;
    }
    Ok(merged)
}

/// The parameters of an entity type, none where there is no such type.
pub fn parameters_of<'a>(entity_type: Option<&'a Named<Parameters>>) -> &'a [Named<Operators>]
    ensures { result.now ≡ value_or [] (option_copied entity_type.entry) }
{
    match entity_type {
        Some(entity_type) => entity_type.value.as_slice(),
        None => &[],
    }
}

fn merge_parameters(
    alloc: Global,
    entity_type: &Text,
    upper: &[Named<Operators>],
    lower: &[Named<Operators>],
) -> Result<Parameters, PolicyFault>
    requires upper { IsTrue (parameters_formed upper.now) }
    requires lower { IsTrue (parameters_formed lower.now) }
    ensures { Gives result (merging_parameters entity_type.now upper.now lower.now) }
{
    let none = Operators::none();
    let merged = merge_sides(alloc, entity_type, &none, upper, lower);
    drop(none);
    merged
}

// Parameter by parameter, with no operators for one that a side hasn't.
fn merge_sides(
    alloc: Global,
    entity_type: &Text,
    none: &Operators,
    upper: &[Named<Operators>],
    lower: &[Named<Operators>],
) -> Result<Parameters, PolicyFault>
    requires none { none.now ≡ no_operators }
    requires upper { IsTrue (parameters_formed upper.now) }
    requires lower { IsTrue (parameters_formed lower.now) }
    ensures { Gives result (merging_parameters entity_type.now upper.now lower.now) }
{
    let mut merged = Seq::new(alloc);
    let mut sides = Sides { upper, lower };
    while let Some(side) = sides.next() {
        let value = merge_operators(
            alloc,
            entity_type,
            side.name,
            operators_of(side.upper, none),
            operators_of(side.lower, none),
        )?;
        add(alloc, &mut merged, side.name, value)?;
    }
    Ok(merged)
}

/// The operators of a parameter, or those given where there is none.
pub fn operators_of<'a>(
    parameter: Option<&'a Named<Operators>>,
    none: &'a Operators,
) -> &'a Operators
    ensures { result.now ≡ value_or none.now (option_copied parameter.entry) }
{
    match parameter {
        Some(parameter) => &parameter.value,
        None => none,
    }
}

fn merge_operators(
    alloc: Global,
    entity_type: &Text,
    parameter: &Text,
    upper: &Operators,
    lower: &Operators,
) -> Result<Operators, PolicyFault>
    ensures { Gives result (merging_operators entity_type.now parameter.now upper.now lower.now) }
{
    if !agree(&upper.value, &lower.value) {
        return Err(conflict(
            alloc,
            entity_type,
            parameter,
            Operator::Value,
            Operator::Value,
        ));
    }
    if !agree(&upper.default, &lower.default) {
        return Err(conflict(
            alloc,
            entity_type,
            parameter,
            Operator::Default,
            Operator::Default,
        ));
    }
    let merged = all_operators(alloc, upper, lower)?;
    match clash(alloc, parameter, &merged) {
        Ok(None) => Ok(merged),
        Ok(Some((first, second))) => {
            drop(merged);
            Err(conflict(alloc, entity_type, parameter, first, second))
        },
        Err(Memory) => {
            drop(merged);
            Err(PolicyFault::Memory)
        },
    }
}

fn agree(upper: &Option<Json>, lower: &Option<Json>) -> bool
    ensures { result ≡ if_both same upper.now lower.now }
{
    match (upper, lower) {
        (Some(upper), Some(lower)) => json_equal(upper, lower),
        _ => true,
    }
}

fn all_operators(alloc: Global, upper: &Operators, lower: &Operators) -> Result<Operators, Memory>
    ensures { IfOk result (λ merged. merged ≡ merged_operators upper.now lower.now) }
{
    let mut merged = Operators::none();
    match fill_in(alloc, upper, lower, &mut merged) {
        Ok(()) => Ok(merged),
        Err(Memory) => {
            drop(merged);
            Err(Memory)
        },
    }
}

// Puts each operator of both in its place.
fn fill_in(
    alloc: Global,
    upper: &Operators,
    lower: &Operators,
    merged: &mut Operators,
) -> Result<(), Memory>
    ensures { OnOk result (merged.new ≡ merged_operators upper.now lower.now) }
{
    merged.value = upper_first(alloc, &upper.value, &lower.value)?;
    merged.default = upper_first(alloc, &upper.default, &lower.default)?;
    merged.add = of_either(alloc, &upper.add, &lower.add)?;
    merged.superset_of = of_either(alloc, &upper.superset_of, &lower.superset_of)?;
    merged.one_of = of_both(alloc, &upper.one_of, &lower.one_of)?;
    merged.subset_of = of_both(alloc, &upper.subset_of, &lower.subset_of)?;
    merged.essential = required(upper.essential, lower.essential);
    Ok(())
}

fn upper_first(
    alloc: Global,
    upper: &Option<Json>,
    lower: &Option<Json>,
) -> Result<Option<Json>, Memory>
    ensures { IfOk result (λ merged. merged ≡ met (λ u l. u) upper.now lower.now) }
{
    match upper {
        Some(_) => upper.copy(alloc),
        None => lower.copy(alloc),
    }
}

fn of_either(
    alloc: Global,
    upper: &Option<Seq<Json>>,
    lower: &Option<Seq<Json>>,
) -> Result<Option<Seq<Json>>, Memory>
    ensures { IfOk result (λ merged. merged ≡ met union_of upper.now lower.now) }
{
    match (upper, lower) {
        (Some(upper), Some(lower)) => Ok(Some(union(alloc, upper, lower)?)),
        (Some(_), None) => upper.copy(alloc),
        (None, _) => lower.copy(alloc),
    }
}

fn of_both(
    alloc: Global,
    upper: &Option<Seq<Json>>,
    lower: &Option<Seq<Json>>,
) -> Result<Option<Seq<Json>>, Memory>
    ensures { IfOk result (λ merged. merged ≡ met intersection_of upper.now lower.now) }
{
    match (upper, lower) {
        (Some(upper), Some(lower)) => Ok(Some(intersect(alloc, upper, lower)?)),
        (Some(_), None) => upper.copy(alloc),
        (None, _) => lower.copy(alloc),
    }
}

fn required(upper: Option<bool>, lower: Option<bool>) -> Option<bool>
    ensures { result ≡ met (λ u l. u || l) upper lower }
{
    match (upper, lower) {
        (Some(upper), Some(lower)) => Some(upper || lower),
        (Some(_), None) => upper,
        (None, _) => lower,
    }
}
