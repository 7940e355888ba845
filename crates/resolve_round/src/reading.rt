// Pages that are read.

ghost use Rattle.std.specs.Prelude.{◌≡◌, IfOk};
ghost use Rattle.std.specs.Option.{option_copied};
ghost use Rattle.resolve_round.specs.Courses.{text_got};
ghost use Rattle.resolve_round.specs.Reading.{IsGotReading, IsNamedReading};

use crate::trace::Got;
use entity_id::EntityId;
use entity_statement::SignedStatement;
use fed_base::{Memory, Text};
use fed_ports::Page;
use std::alloc::Global;

// The text that was got, where one was.
pub fn text_got(got: &Got) -> Option<&Text>
    ensures { option_copied result ≡ text_got got.now }
{
    match got {
        Got::Hit(proven) => Some(&proven.text),
        Got::Fetched(Page::Document(text)) => Some(text),
        Got::Fetched(_) => None,
        Got::Fault => None,
    }
}

// The statement that the text reads as, where it has these names.
#[tactic(auto, unfolding(crate::specs::Pages::named_statement))]
pub(crate) fn read_named(
    alloc: Global,
    text: &Text,
    issuer: &EntityId,
    subject: &EntityId,
) -> Result<Option<SignedStatement>, Memory>
    ensures { IfOk result (IsNamedReading issuer.now subject.now text.now) }
{
    let Some(signed) = SignedStatement::read_text(alloc, text)? else {
        return Ok(None);
    };
    if signed.statement.iss == *issuer && signed.statement.sub == *subject {
        Ok(Some(signed))
    } else {
        drop(signed);
        Ok(None)
    }
}

// The same of what was got, where it has a text.
pub fn read_got(
    alloc: Global,
    got: &Got,
    issuer: &EntityId,
    subject: &EntityId,
) -> Result<Option<SignedStatement>, Memory>
    ensures { IfOk result (IsGotReading issuer.now subject.now (text_got got.now)) }
{
    match text_got(got) {
        Some(text) => read_named(alloc, text, issuer, subject),
        None => Ok(None),
    }
}
