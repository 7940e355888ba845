// Places of a configuration.

ghost use Rattle.std.specs.Prelude.{◌≡◌, IfOk};
ghost use Rattle.config_warnings.specs.Places.{item_at, under};

use fed_base::{Memory, Text};
use std::alloc::Global;

/// The member of that name of the object at the place.
pub(crate) fn under(alloc: Global, place: &[u8], name: &[u8]) -> Result<Text, Memory>
    ensures { IfOk result (λ text. text ≡ under place.now name.now) }
{
    let mut text = Text::of(alloc, place)?;
    text.push(b'.')?;
    text.append(name)?;
    Ok(text)
}

/// That place of the list at the place.
pub(crate) fn item_at(alloc: Global, place: &[u8], index: usize) -> Result<Text, Memory>
    ensures { IfOk result (λ text. text ≡ item_at place.now index) }
{
    let digits = format!(in alloc; "{index}")?;
    let mut text = Text::of(alloc, place)?;
    text.push(b'[')?;
    text.append(digits.as_bytes())?;
    text.push(b']')?;
    Ok(text)
}
