// Metadata under a policy.

ghost use Rattle.std.specs.Prelude.{◌≡◌, ◌↔◌, ◌∷◌, [], IfOk, IfErr, IsTrue, None, Option, List, map, option_map};
ghost use Rattle.std.specs.Option.{option_copied};
ghost use Rattle.fed_json.specs.Forms.{rising, members_whole};
ghost use Rattle.fed_json.specs.Trees.{find, member_name};
ghost use Rattle.fed_json.specs.declared.tree.Json.{Json as Tree};
ghost use Rattle.fed_json.specs.Tables.{Name};
ghost use Rattle.fed_json.specs.Metadata.{IsMetadata};
ghost use Rattle.policy_merge.specs.Policies.{Types as Policies, types_formed, operators_at, no_operators};
ghost use Rattle.policy_merge.specs.Combining.{conflict_in};
ghost use Rattle.policy_merge.specs.Merging.{name_of, merging, value_or};
ghost use Rattle.policy_apply.specs.Acting.{acted as acted_on};
ghost use Rattle.policy_apply.specs.Applying.{Gives, applying, applying_parameters, applying_types, leaving, parameter_at, outcome_in, HasType, IsFirstRefusal, NamesUtf8, IsRefusal};
ghost use Rattle.policy_apply.specs.Keeping.{KeepsWithin, AddsWords, IsMergedOf, OfEach};

use crate::acting::acted;
use crate::fault::ApplyFault;
use crate::stop::Stop;
use fed_base::{Duplicate, Seq, Text};
use fed_json::{Json, Member, Named, Side, Sides, object_members};
use policy_merge::{Operator, Operators, Parameters, Policy, operators_of, parameters_of};
use std::alloc::Global;

/// The metadata under the policy (OpenID Federation 1.0 section 6.1.4.2): an object from entity type to an object from
/// parameter to value. Entity types that the metadata lacks are passed over, and parameters without operators stay.
///
/// `Refused` where an operator refuses its parameter: the first by entity type, then by parameter, both in byte order
/// of names, then in the order value, add, default, one_of, subset_of, superset_of, essential.
pub fn apply(alloc: Global, policy: &Policy, metadata: &Json) -> Result<Json, ApplyFault>
    requires metadata { IsMetadata metadata.now }
    requires combines { conflict_in policy.now ≡ None }
    ensures applied { Gives result (applying policy.now metadata.now) }
    ensures first { IfErr result (IsFirstRefusal policy.now metadata.now) }
    ensures metadata { IfOk result IsMetadata }
    ensures utf8 { IfErr result NamesUtf8 }
    ensures types { IfOk result (λ tree. (t : Name) → HasType tree t ↔ HasType metadata.now t) }
    ensures acted { IfOk result (λ tree. (t p : Name) → HasType metadata.now t
        → outcome_in policy.now metadata.now t p ≡ Ok (parameter_at tree t p)) }
    ensures stays { IfOk result (λ tree. (t p : Name) → HasType metadata.now t
        → operators_at policy.now t p ≡ no_operators → parameter_at tree t p ≡ parameter_at metadata.now t p) }
    ensures keeps_within { IfOk result (λ tree. (t p : Name) → HasType metadata.now t
        → AddsWords p (operators_at policy.now t p)
        → KeepsWithin p (operators_at policy.now t p) (parameter_at tree t p)) }
    ensures keeps_within_both { (upper lower : Policies) → merging upper lower ≡ Ok policy.now
        → IfOk result (λ tree. (t p : Name) → HasType metadata.now t
        → AddsWords p (operators_at policy.now t p)
        → KeepsWithin p (operators_at upper t p) (parameter_at tree t p)
        × KeepsWithin p (operators_at lower t p) (parameter_at tree t p)) }
    ensures keeps_within_all { (top : Policies) (lowers : List Policies) → IsMergedOf top lowers policy.now
        → IfOk result (λ tree. (t p : Name) → HasType metadata.now t
        → AddsWords p (operators_at policy.now t p)
        → OfEach (λ one. KeepsWithin p (operators_at one t p) (parameter_at tree t p)) (top ∷ lowers)) }
    ensures again { IfOk result (λ tree. (t p : Name) → HasType metadata.now t
        → AddsWords p (operators_at policy.now t p)
        → outcome_in policy.now tree t p ≡ Ok (parameter_at tree t p)) }
{
    let types = apply_types(alloc, policy.types(), object_members(metadata))?;
    Ok(Json::Object(types))
}

fn apply_types(
    alloc: Global,
    policy: &[Named<Parameters>],
    metadata: &[Member],
) -> Result<Seq<Member>, ApplyFault>
    requires policy { IsTrue (types_formed policy.now) }
    requires metadata { IsTrue (members_whole metadata.now) }
    ensures { Gives result (applying_types policy.now metadata.now) }
{
    let mut applied = Seq::new(alloc);
    let mut sides = Sides {
        upper: policy,
        lower: metadata,
    };
    while let Some(side) = sides.next() {
        if let Some(entity_type) = side.lower {
            let policy = parameters_of(side.upper);
            let parameters = object_members(&entity_type.value);
            let parameters = apply_parameters(alloc, side.name, policy, parameters)?;
            let name = side.name.copy(alloc)?;
            let value = Json::Object(parameters);
            applied.push(Member { name, value })?;
        }
    }
    Ok(applied)
}

fn apply_parameters(
    alloc: Global,
    entity_type: &Text,
    policy: &[Named<Operators>],
    parameters: &[Member],
) -> Result<Seq<Member>, ApplyFault>
    requires policy { IsTrue (rising (map name_of policy.now)) }
    requires parameters { IsTrue (rising (map member_name parameters.now)) }
    ensures { Gives result (applying_parameters entity_type.now policy.now parameters.now) }
{
    let none = Operators::none();
    let mut applied = Seq::new(alloc);
    let mut sides = Sides {
        upper: policy,
        lower: parameters,
    };
    while let Some(side) = sides.next() {
        let operators = operators_of(side.upper, &none);
        let value = value_of(side.lower);
        if let Some(value) = apply_operators(alloc, entity_type, side.name, operators, value)? {
            let name = side.name.copy(alloc)?;
            applied.push(Member { name, value })?;
        }
    }
    Ok(applied)
}

fn value_of<'a>(parameter: Option<&'a Member>) -> Option<&'a Json>
    ensures { option_copied result ≡ option_map (λ m. m.value) (option_copied parameter.entry) }
{
    match parameter {
        Some(parameter) => Some(&parameter.value),
        None => None,
    }
}

fn apply_operators(
    alloc: Global,
    entity_type: &Text,
    parameter: &Text,
    operators: &Operators,
    value: Option<&Json>,
) -> Result<Option<Json>, ApplyFault>
    ensures { Gives result (leaving entity_type.now parameter.now
        (acted_on parameter.now operators.now (option_copied value.entry))) }
{
    match acted(alloc, parameter, operators, value) {
        Ok(value) => Ok(value),
        Err(Stop::Refused(operator)) => Err(refused(alloc, entity_type, parameter, operator)),
        Err(Stop::Memory) => Err(ApplyFault::Memory),
    }
}

// The fault that names the operator, or `Memory`.
fn refused(alloc: Global, entity_type: &Text, parameter: &Text, operator: Operator) -> ApplyFault
    ensures { IsRefusal result entity_type.now parameter.now operator }
{
    match (entity_type.copy(alloc), parameter.copy(alloc)) {
        (Ok(entity_type), Ok(parameter)) => ApplyFault::Refused {
            entity_type,
            parameter,
            operator,
        },
        _ => ApplyFault::Memory,
    }
}
