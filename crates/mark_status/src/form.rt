// The form that asks about a mark.

ghost use Rattle.std.specs.Prelude.{◌≡◌, IfOk};
ghost use Rattle.mark_status.specs.Answers.{form_of};

use fed_base::{Memory, Text};
use std::alloc::Global;

/// The form with the mark's text as `trust_mark` (OpenID Federation 1.0 section 8.4.1).
#[tactic(auto, unfolding(crate::specs::Answers::form_of))]
pub(crate) fn form(alloc: Global, mark: &Text) -> Result<Text, Memory>
    ensures { IfOk result (λ form. form ≡ form_of mark.now) }
{
    let mut form = Text::of(alloc, b"trust_mark=")?;
    for piece in form_urlencoded::byte_serialize(mark.as_slice()) {
        form.append(piece.as_bytes())?;
    }
    Ok(form)
}
