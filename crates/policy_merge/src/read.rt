// Policies from trees.

ghost use Rattle.std.specs.Prelude.{◌≡◌, Option, Some};
ghost use Rattle.std.specs.Option.{option_copied};
ghost use Rattle.fed_json.specs.Trees.{as_list, find as value_at};
ghost use Rattle.fed_json.specs.declared.tree.Json.{Json as Tree};
ghost use Rattle.policy_merge.specs.Shapes.{Reads, ReadsInto, at, as_default, as_truth, operators_shape, operators_of, table_of, table_shape};
ghost use Rattle.policy_merge.specs.Names.{operator_name};

use crate::fault::PolicyShape;
use crate::operator::Operator;
use crate::operators::Operators;
use crate::tables::add;
use fed_base::{Duplicate, Seq};
use fed_json::{Json, Member, Named, find};
use std::alloc::Global;

/// A part of a policy that is read from its tree.
pub(crate) trait FromTree: Sized {
    ghost shape: { Tree → Option Self };

    fn from_tree(alloc: Global, tree: &Json) -> Result<Self, PolicyShape>
        ensures { Reads result (shape tree.now) };
}

impl<T: FromTree + Drop> FromTree for Seq<Named<T>> {
    ghost shape = { table_shape T.shape };

    #[tactic(auto, unfolding(crate::specs::Shapes::table_shape))]
    fn from_tree(alloc: Global, tree: &Json) -> Result<Self, PolicyShape> {
        match tree {
            Json::Object(members) => table(alloc, members.as_slice()),
            _ => Err(PolicyShape::Shape),
        }
    }
}

fn table<T: FromTree + Drop>(
    alloc: Global,
    members: &[Member],
) -> Result<Seq<Named<T>>, PolicyShape>
    ensures { Reads result (table_of T.shape members.now) }
{
    let mut table = Seq::new(alloc);
    for member in members {
        let value = T::from_tree(alloc, &member.value)?;
        add(alloc, &mut table, &member.name, value)?;
    }
    Ok(table)
}

impl FromTree for Operators {
    ghost shape = { operators_shape };

    #[tactic(auto, unfolding(crate::specs::Shapes::operators_shape))]
    fn from_tree(alloc: Global, tree: &Json) -> Result<Self, PolicyShape> {
        match tree {
            Json::Object(members) => operators(alloc, members.as_slice()),
            _ => Err(PolicyShape::Shape),
        }
    }
}

fn operators(alloc: Global, members: &[Member]) -> Result<Operators, PolicyShape>
    ensures { Reads result (operators_of members.now) }
{
    let mut operators = Operators::none();
    match fill_in(alloc, members, &mut operators) {
        Ok(()) => Ok(operators),
        Err(fault) => {
            drop(operators);
            Err(fault)
        },
    }
}

// Puts each operator that the members give in its place.
fn fill_in(alloc: Global, members: &[Member], operators: &mut Operators) -> Result<(), PolicyShape>
    ensures { ReadsInto operators.new result (operators_of members.now) }
{
    value(alloc, members, &mut operators.value)?;
    list(alloc, members, Operator::Add, &mut operators.add)?;
    default(alloc, members, &mut operators.default)?;
    list(alloc, members, Operator::OneOf, &mut operators.one_of)?;
    list(alloc, members, Operator::SubsetOf, &mut operators.subset_of)?;
    list(
        alloc,
        members,
        Operator::SupersetOf,
        &mut operators.superset_of,
    )?;
    operators.essential = essential(members)?;
    Ok(())
}

fn given<'a>(members: &'a [Member], operator: Operator) -> Option<&'a Json>
    ensures { option_copied result ≡ value_at (operator_name operator) members.now }
{
    find(members, operator.name().as_bytes())
}

fn value(alloc: Global, members: &[Member], place: &mut Option<Json>) -> Result<(), PolicyShape>
    ensures { ReadsInto place.new result (at Some Operator.Value members.now) }
{
    *place = match given(members, Operator::Value) {
        Some(tree) => Some(tree.copy(alloc)?),
        None => None,
    };
    Ok(())
}

fn default(alloc: Global, members: &[Member], place: &mut Option<Json>) -> Result<(), PolicyShape>
    ensures { ReadsInto place.new result (at as_default Operator.Default members.now) }
{
    *place = match given(members, Operator::Default) {
        Some(Json::Null) => return Err(PolicyShape::Shape),
        Some(tree) => Some(tree.copy(alloc)?),
        None => None,
    };
    Ok(())
}

fn list(
    alloc: Global,
    members: &[Member],
    operator: Operator,
    place: &mut Option<Seq<Json>>,
) -> Result<(), PolicyShape>
    ensures { ReadsInto place.new result (at as_list operator members.now) }
{
    *place = match given(members, operator) {
        Some(Json::List(items)) => Some(items.copy(alloc)?),
        Some(_) => return Err(PolicyShape::Shape),
        None => None,
    };
    Ok(())
}

fn essential(members: &[Member]) -> Result<Option<bool>, PolicyShape>
    ensures { Reads result (at as_truth Operator.Essential members.now) }
{
    match given(members, Operator::Essential) {
        Some(Json::Bool(required)) => Ok(Some(*required)),
        Some(_) => Err(PolicyShape::Shape),
        None => Ok(None),
    }
}
