// Rows about metadata policies.

ghost use Rattle.std.specs.Prelude.{◌≡◌, IfOk, None};
ghost use Rattle.policy_merge.specs.Combining.{conflict_in};
ghost use Rattle.fed_json.specs.Metadata.{IsMetadata};

use crate::words::{add_word, cut, tree_told};
use fed_base::{Duplicate, Memory, Seq, Text};
use fed_json::{Json, Named, TreeFault, is_metadata, is_whole, read_tree, write_tree};
use policy_apply::{ApplyFault, apply};
use policy_merge::{Operator, Operators, Policy, PolicyFault, PolicyShape};
use std::alloc::Global;

// The policy of a text, and the empty one where there is no text.
fn read(alloc: Global, text: &str) -> Result<Policy, PolicyShape> {
    if text.is_empty() {
        return Ok(Policy::empty(alloc));
    }
    match read_tree(alloc, text.as_bytes()) {
        Ok(tree) => {
            let policy = Policy::read(alloc, &tree);
            drop(tree);
            policy
        }
        Err(TreeFault::Syntax) => Err(PolicyShape::Shape),
        Err(TreeFault::Memory) => Err(PolicyShape::Memory),
    }
}

fn add_tree(alloc: Global, out: &mut Text, operator: Operator, tree: &Json) -> Result<(), Memory> {
    add_word(out, operator.name().as_bytes())?;
    if is_whole(tree) {
        let text = write_tree(alloc, tree)?;
        add_word(out, text.as_slice())?;
    }
    Ok(())
}

fn add_value(
    alloc: Global,
    out: &mut Text,
    operator: Operator,
    tree: &Option<Json>,
) -> Result<(), Memory> {
    match tree {
        Some(tree) => add_tree(alloc, out, operator, tree),
        None => Ok(()),
    }
}

fn add_list(
    alloc: Global,
    out: &mut Text,
    operator: Operator,
    list: &Option<Seq<Json>>,
) -> Result<(), Memory> {
    match list {
        Some(list) => {
            let tree = Json::List(list.copy(alloc)?);
            let added = add_tree(alloc, out, operator, &tree);
            drop(tree);
            added
        }
        None => Ok(()),
    }
}

fn add_operators(alloc: Global, out: &mut Text, operators: &Operators) -> Result<(), Memory> {
    add_value(alloc, out, Operator::Value, &operators.value)?;
    add_list(alloc, out, Operator::Add, &operators.add)?;
    add_value(alloc, out, Operator::Default, &operators.default)?;
    add_list(alloc, out, Operator::OneOf, &operators.one_of)?;
    add_list(alloc, out, Operator::SubsetOf, &operators.subset_of)?;
    add_list(alloc, out, Operator::SupersetOf, &operators.superset_of)?;
    match operators.essential {
        Some(essential) => add_tree(alloc, out, Operator::Essential, &Json::Bool(essential)),
        None => Ok(()),
    }
}

fn add_parameters(
    alloc: Global,
    out: &mut Text,
    entity_type: &Text,
    parameters: &[Named<Operators>],
) -> Result<(), Memory> {
    for parameter in parameters {
        add_word(out, entity_type.as_slice())?;
        add_word(out, parameter.name.as_slice())?;
        add_operators(alloc, out, &parameter.value)?;
    }
    Ok(())
}

fn add_policy(alloc: Global, out: &mut Text, policy: &Policy) -> Result<(), Memory> {
    for entity_type in policy.types() {
        add_parameters(alloc, out, &entity_type.name, entity_type.value.as_slice())?;
    }
    Ok(())
}

// Each entity type with each parameter and its operators.
fn policy_told(alloc: Global, policy: &Policy) -> Result<Text, Memory> {
    let mut out = Text::new(alloc);
    add_policy(alloc, &mut out, policy)?;
    Ok(out)
}

fn fault_told(alloc: Global, fault: &PolicyFault) -> Result<Text, Memory> {
    match fault {
        PolicyFault::Conflict {
            entity_type,
            parameter,
            first,
            second,
        } => {
            let mut out = Text::of(alloc, b"Conflict")?;
            add_word(&mut out, entity_type.as_slice())?;
            add_word(&mut out, parameter.as_slice())?;
            add_word(&mut out, first.name().as_bytes())?;
            add_word(&mut out, second.name().as_bytes())?;
            Ok(out)
        }
        PolicyFault::Memory => Err(Memory),
    }
}

fn policy_copy_told(alloc: Global, policy: &Policy) -> Result<Text, Memory> {
    let copy = policy.copy(alloc)?;
    let told = policy_told(alloc, &copy);
    drop(copy);
    told
}

fn fault_copy_told(alloc: Global, fault: PolicyFault) -> Result<Text, Memory> {
    let copy = fault.copy(alloc);
    drop(fault);
    let copy = copy?;
    let told = fault_told(alloc, &copy);
    drop(copy);
    told
}

fn merge_told(alloc: Global, merged: Result<Policy, PolicyFault>) -> Result<Text, Memory> {
    match merged {
        Ok(policy) => {
            let told = policy_copy_told(alloc, &policy);
            drop(policy);
            told
        }
        Err(fault) => fault_copy_told(alloc, fault),
    }
}

fn merged_told(alloc: Global, upper: &Policy, lower: &Policy) -> Result<Text, Memory> {
    match upper.combined(alloc) {
        Ok(()) => merge_told(alloc, upper.merge(alloc, lower)),
        Err(fault) => fault_copy_told(alloc, fault),
    }
}

fn shape_told(alloc: Global, shape: PolicyShape) -> Result<Text, Memory> {
    match shape {
        PolicyShape::Shape => Text::of(alloc, b"Shape"),
        PolicyShape::Memory => Err(Memory),
    }
}

fn merge_with(alloc: Global, upper: &Policy, lower: &str) -> Result<Text, Memory> {
    match read(alloc, lower) {
        Ok(lower) => {
            let told = merged_told(alloc, upper, &lower);
            drop(lower);
            told
        }
        Err(shape) => shape_told(alloc, shape),
    }
}

/// `merge UPPER LOWER`: each type, parameter, operator and value of the merged policy; the conflict of the upper one, or else of both; or
/// `Shape`. The lower one is empty where it isn't given.
pub(crate) fn merge(alloc: Global, given: &str) -> Result<Text, Memory> {
    let (upper, lower) = cut(given);
    match read(alloc, upper) {
        Ok(upper) => {
            let told = merge_with(alloc, &upper, lower);
            drop(upper);
            told
        }
        Err(shape) => shape_told(alloc, shape),
    }
}

// The two texts as policies, merged.
fn merged(alloc: Global, upper: &str, lower: &str) -> Result<Policy, PolicyFault>
    ensures { IfOk result (λ policy. conflict_in policy ≡ None) }
{
    let upper = read(alloc, upper);
    let lower = read(alloc, lower);
    let merged = match (&upper, &lower) {
        (Ok(upper), Ok(lower)) => upper.merge(alloc, lower),
        _ => Err(PolicyFault::Memory),
    };
    drop(upper);
    drop(lower);
    merged
}

fn refusal_told(alloc: Global, fault: &ApplyFault) -> Result<Text, Memory> {
    match fault {
        ApplyFault::Refused {
            entity_type,
            parameter,
            operator,
        } => {
            let mut out = Text::of(alloc, b"Refused")?;
            add_word(&mut out, entity_type.as_slice())?;
            add_word(&mut out, parameter.as_slice())?;
            add_word(&mut out, operator.name().as_bytes())?;
            Ok(out)
        }
        ApplyFault::Memory => Err(Memory),
    }
}

fn refusal_copy_told(alloc: Global, fault: &ApplyFault) -> Result<Text, Memory> {
    let copy = fault.copy(alloc)?;
    let told = refusal_told(alloc, &copy);
    drop(copy);
    told
}

fn applied_told(alloc: Global, policy: &Policy, metadata: &Json) -> Result<Text, Memory>
    requires metadata { IsMetadata metadata.now }
    requires combines { conflict_in policy.now ≡ None }
{
    match apply(alloc, policy, metadata) {
        Ok(tree) => {
            let told = tree_told(alloc, &tree);
            drop(tree);
            told
        }
        Err(fault) => {
            let told = refusal_copy_told(alloc, &fault);
            drop(fault);
            told
        }
    }
}

fn apply_to_tree(alloc: Global, policy: &Policy, metadata: &Json) -> Result<Text, Memory>
    requires { conflict_in policy.now ≡ None }
{
    if is_metadata(metadata) {
        applied_told(alloc, policy, metadata)
    } else {
        Text::of(alloc, b"no metadata")
    }
}

fn apply_to(alloc: Global, policy: &Policy, metadata: &str) -> Result<Text, Memory>
    requires { conflict_in policy.now ≡ None }
{
    match read_tree(alloc, metadata.as_bytes()) {
        Ok(metadata) => {
            let told = apply_to_tree(alloc, policy, &metadata);
            drop(metadata);
            told
        }
        Err(_) => Text::of(alloc, b"no tree"),
    }
}

/// `apply METADATA UPPER LOWER`: the metadata under both policies, or what refuses it.
pub(crate) fn apply_both(alloc: Global, given: &str) -> Result<Text, Memory> {
    let (metadata, policies) = cut(given);
    let (upper, lower) = cut(policies);
    match merged(alloc, upper, lower) {
        Ok(policy) => {
            let told = apply_to(alloc, &policy, metadata);
            drop(policy);
            told
        }
        Err(_) => Text::of(alloc, b"no policy"),
    }
}
