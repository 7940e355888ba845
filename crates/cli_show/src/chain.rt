// Chains of signed texts.

ghost use Rattle.std.specs.Prelude.{◌≡◌, ◌++◌, ◌||◌, IfOk, OnOk};
ghost use Rattle.cli_show.specs.Views.{any_refused, chain_view, entries, entry};
ghost use Rattle.cli_show.specs.Findings.{text_found};

use crate::finding::text_found;
use crate::lines::{append_counted, append_unverified};
use crate::parts::append_sections;
use crate::view::View;
use fed_base::{Memory, Text};
use std::alloc::Global;

/// What is shown of a chain.
#[tactic(auto, unfolding(crate::specs::Views::chain_view))]
pub(crate) fn chain_view(alloc: Global, texts: &[Text]) -> Result<View, Memory>
    ensures { IfOk result (λ view. view ≡ chain_view texts.now) }
{
    let View { refused, mut text } = entries_of(alloc, texts)?;
    append_counted(alloc, &mut text, b"chain of ", texts.len() as u64)?;
    text.push(b'\n')?;
    append_unverified(&mut text)?;
    Ok(View { refused, text })
}

// Each text in its turn, and whether one of them isn't what it says.
fn entries_of(alloc: Global, texts: &[Text]) -> Result<View, Memory>
    ensures text { IfOk result (λ view. view.text ≡ entries 0 texts.now) }
    ensures refused { IfOk result (λ view. view.refused ≡ any_refused texts.now) }
{
    let mut out = Text::new(alloc);
    let mut any = false;
    let mut place = 0;
    for text in texts {
        let refused = append_entry(alloc, &mut out, place, text.as_slice())?;
        any = either(any, refused);
        place += 1;
    }
    Ok(View {
        refused: any,
        text: out,
    })
}

// Appends what is shown of the text at that place, and answers whether it isn't what it says.
fn append_entry(alloc: Global, out: &mut Text, place: u64, text: &[u8]) -> Result<bool, Memory>
    ensures appended { OnOk result (out.new ≡ out.old ++ entry place text.now) }
    ensures refused { IfOk result (λ refused. refused ≡ (text_found text.now).refused) }
{
    append_counted(alloc, out, b"text ", place)?;
    out.push(b'\n')?;
    append_sections(alloc, out, text)?;
    let found = text_found(alloc, text)?;
    out.append(found.text.as_slice())?;
    Ok(found.refused)
}

fn either(a: bool, b: bool) -> bool
    ensures { result ≡ (a || b) }
{
    if a { true } else { b }
}
