// Key sets.

ghost use Rattle.std.specs.Prelude.{◌≡◌, ◌++◌, ◌∷◌, [], Err, IfOk, Ok};
ghost use Rattle.fed_json.specs.Forms.{IsWellFormed};
ghost use Rattle.jwk_set.specs.KeySets.{key_set_in};
ghost use Rattle.cli_show.specs.Views.{set_found, unverified};

use crate::faults::set_reason;
use crate::indented::show_json;
use crate::lines::{append_counted, append_plain, append_unverified};
use crate::view::View;
use fed_base::{Memory, Text};
use fed_json::Json;
use jwk_set::{JwkSet, SetFault};
use std::alloc::Global;

/// What is shown of a tree as a key set.
pub(crate) fn set_view(alloc: Global, tree: &Json) -> Result<View, Memory>
    requires { IsWellFormed tree.now }
    ensures { IfOk result (λ view. view ≡ set_found (key_set_in tree.now)) }
{
    match JwkSet::read(alloc, tree) {
        Ok(set) => keys_view(alloc, &set),
        Err(SetFault::Memory) => Err(Memory),
        Err(fault) => refused_view(alloc, fault),
    }
}

fn keys_view(alloc: Global, set: &JwkSet) -> Result<View, Memory>
    ensures { IfOk result (λ view. view ≡ set_found (Ok set.now.keys)) }
{
    let tree = set.write(alloc)?;
    let shown = show_json(alloc, &tree);
    drop(tree);
    let mut text = shown?;
    append_counted(alloc, &mut text, b"\nkey set of ", set.keys.len() as u64)?;
    close(false, text)
}

fn refused_view(alloc: Global, fault: SetFault) -> Result<View, Memory>
    ensures { IfOk result (λ view. view ≡ set_found (Err fault)) }
{
    let reason = set_reason(alloc, fault)?;
    let mut text = Text::new(alloc);
    append_plain(&mut text, b"refused ", reason.as_slice())?;
    close(true, text)
}

// The lines, of which the last is ended here, and that nothing was verified.
fn close(refused: bool, mut text: Text) -> Result<View, Memory>
    ensures { IfOk result (λ view. view ≡ record { refused = refused; text = unverified (text ++ 10 ∷ []) }) }
{
    text.push(b'\n')?;
    append_unverified(&mut text)?;
    Ok(View { refused, text })
}
