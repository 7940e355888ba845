// Claims by their names, each in its form.

ghost use Rattle.std.specs.Prelude.{◌≡◌, IfOk};
ghost use Rattle.std.specs.Option.{ok_or};
ghost use Rattle.fed_json.specs.Trees.{find as value_at};
ghost use Rattle.entity_statement.specs.Forms.{identifier, moment};
ghost use Rattle.trust_mark.specs.Claims.{Gives, GivesBy, any_text, claim, claim_if_there};
ghost use Rattle.trust_mark.specs.declared.fault.MarkFault.TheVariants.{Missing, Shape};

use crate::fault::MarkFault;
use entity_id::EntityId;
use fed_base::{Duplicate, MOMENT_LIMIT, Memory, Text};
use fed_json::{Json, Member, count_below, find};
use std::alloc::Global;

// The value of a claim that must be there.
fn required<'a>(alloc: Global, claims: &'a [Member], name: &[u8]) -> Result<&'a Json, MarkFault>
    ensures { GivesBy (λ tree. tree.now) result (ok_or (value_at name.now claims.now) (Missing name.now)) }
{
    match find(claims, name) {
        Some(tree) => Ok(tree),
        None => Err(MarkFault::Missing(Text::of(alloc, name)?)),
    }
}

/// What the claim's value says, where it has its form.
pub(crate) fn formed<T>(alloc: Global, name: &[u8], form: Option<T>) -> Result<T, MarkFault>
    ensures { Gives result (ok_or form (Shape name.now)) }
{
    match form {
        Some(value) => Ok(value),
        None => Err(MarkFault::Shape(Text::of(alloc, name)?)),
    }
}

// The identifier that the text is.
#[tactic(auto, unfolding(entity_statement::specs::Forms::identifier))]
fn identifier(alloc: Global, tree: &Json) -> Result<Option<EntityId>, Memory>
    ensures { IfOk result (λ id. id ≡ identifier tree.now) }
{
    match tree {
        Json::Text(text) => EntityId::of(alloc, text.as_slice()),
        _ => Ok(None),
    }
}

// The moment that the number is.
#[tactic(auto, unfolding(entity_statement::specs::Forms::moment))]
fn moment(tree: &Json) -> Option<u64>
    ensures { result ≡ moment tree.now }
{
    count_below(tree, MOMENT_LIMIT)
}

// A copy of the text.
#[tactic(auto, unfolding(crate::specs::Claims::any_text))]
fn text(alloc: Global, tree: &Json) -> Result<Option<Text>, Memory>
    ensures { IfOk result (λ text. text ≡ any_text tree.now) }
{
    match tree {
        Json::Text(text) => Ok(Some(text.copy(alloc)?)),
        _ => Ok(None),
    }
}

/// An identifier that must be there.
pub(crate) fn identifier_at(
    alloc: Global,
    claims: &[Member],
    name: &[u8],
) -> Result<EntityId, MarkFault>
    ensures { Gives result (claim name.now identifier claims.now) }
{
    let tree = required(alloc, claims, name)?;
    let id = identifier(alloc, tree)?;
    formed(alloc, name, id)
}

/// A moment that must be there.
pub(crate) fn moment_at(alloc: Global, claims: &[Member], name: &[u8]) -> Result<u64, MarkFault>
    ensures { Gives result (claim name.now moment claims.now) }
{
    let tree = required(alloc, claims, name)?;
    formed(alloc, name, moment(tree))
}

/// A text that must be there.
pub(crate) fn text_at(alloc: Global, claims: &[Member], name: &[u8]) -> Result<Text, MarkFault>
    ensures { Gives result (claim name.now any_text claims.now) }
{
    let tree = required(alloc, claims, name)?;
    let text = text(alloc, tree)?;
    formed(alloc, name, text)
}

/// A moment that may be absent.
pub(crate) fn moment_if_there(
    alloc: Global,
    claims: &[Member],
    name: &[u8],
) -> Result<Option<u64>, MarkFault>
    ensures { Gives result (claim_if_there name.now moment claims.now) }
{
    let Some(tree) = find(claims, name) else {
        return Ok(None);
    };
    let moment = formed(alloc, name, moment(tree))?;
    Ok(Some(moment))
}

/// A text that may be absent.
pub(crate) fn text_if_there(
    alloc: Global,
    claims: &[Member],
    name: &[u8],
) -> Result<Option<Text>, MarkFault>
    ensures { Gives result (claim_if_there name.now any_text claims.now) }
{
    let Some(tree) = find(claims, name) else {
        return Ok(None);
    };
    let text = text(alloc, tree)?;
    let text = formed(alloc, name, text)?;
    Ok(Some(text))
}
