// Members of one form.

ghost use Rattle.std.specs.Prelude.{◌≡◌, IfOk};
ghost use Rattle.fed_json.specs.Members.{text_member};

use crate::tree::{Json, Member};
use fed_base::{Memory, Text};
use std::alloc::Global;

/// A member of that name that is a text. A tree of such members is whole only where their names and texts are UTF-8.
pub fn text_member(alloc: Global, name: &[u8], text: &[u8]) -> Result<Member, Memory>
    ensures { IfOk result (λ member. member ≡ text_member name.now text.now) }
{
    let name = Text::of(alloc, name)?;
    let text = Text::of(alloc, text)?;
    Ok(Member {
        name,
        value: Json::Text(text),
    })
}
