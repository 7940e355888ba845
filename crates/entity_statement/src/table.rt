// The columns of the table of claims: a claim that must be there, one that has a form, one that has its place.

ghost use Rattle.std.specs.Prelude.{◌≡◌, IfOk, IsTrue};
ghost use Rattle.std.specs.Option.{ok_or};
ghost use Rattle.fed_json.specs.Forms.{IsWellFormed, members_well_formed};
ghost use Rattle.fed_json.specs.Trees.{find as value_at};
ghost use Rattle.entity_statement.specs.Table.{Gives, GivesBy, in_place};
ghost use Rattle.entity_statement.specs.declared.fault.StatementFault.TheVariants.{Missing, Shape};

use crate::fault::StatementFault;
use fed_base::Text;
use fed_json::{Json, Member, find};
use std::alloc::Global;

/// The value of a claim that must be there.
pub(crate) fn required<'a>(
    alloc: Global,
    claims: &'a [Member],
    name: &[u8],
) -> Result<&'a Json, StatementFault>
    ensures value { GivesBy (λ tree. tree.now) result (ok_or (value_at name.now claims.now) (Missing name.now)) }
    ensures well_formed { IsTrue (members_well_formed claims.now) → IfOk result (λ tree. IsWellFormed tree.now) }
{
    match find(claims, name) {
        Some(tree) => Ok(tree),
        None => Err(StatementFault::Missing(Text::of(alloc, name)?)),
    }
}

/// What the claim's value says, where it has its form.
pub(crate) fn formed<T>(alloc: Global, name: &[u8], form: Option<T>) -> Result<T, StatementFault>
    ensures { Gives result (ok_or form (Shape name.now)) }
{
    match form {
        Some(value) => Ok(value),
        None => Err(StatementFault::Shape(Text::of(alloc, name)?)),
    }
}

/// Whether the claim has its place here.
pub(crate) fn in_place(alloc: Global, name: &[u8], here: bool) -> Result<(), StatementFault>
    ensures { Gives result (in_place here name.now) }
{
    if here {
        Ok(())
    } else {
        Err(StatementFault::Misplaced(Text::of(alloc, name)?))
    }
}
