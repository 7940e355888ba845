// What is shown of an input.

ghost use Rattle.std.specs.Prelude.{◌≡◌, IfOk};
ghost use Rattle.fed_json.specs.Forms.{IsWellFormed};
ghost use Rattle.fed_json.specs.Trees.{as_object, texts_of};
ghost use Rattle.jwk_set.specs.KeySets.{key_set_in};
ghost use Rattle.cli_show.specs.Views.{list_view, object_view, set_found, text_view, view_of};

use crate::chain::chain_view;
use crate::finding::text_found;
use crate::key_set::set_view;
use crate::lines::append_unverified;
use crate::notes::{explain_chain, explain_text};
use crate::parts::append_sections;
use crate::view::View;
use fed_base::{Memory, Text};
use fed_json::{Json, TreeFault, copied_texts, read_tree};
use file_notes::{explain_keys_input, explain_no_list};
use plain_notes::Notes;
use std::alloc::Global;

/// What is shown of the input: a signed text, a chain, which is a JSON list of such texts, or a key set, which is a JSON object; or `None`
/// where it is JSON of another kind.
#[tactic(auto, unfolding(crate::specs::Views::view_of))]
pub fn show(alloc: Global, input: &[u8], notes: &mut Notes) -> Result<Option<View>, Memory>
    ensures { IfOk result (λ view. view ≡ view_of input.now) }
{
    match read_tree(alloc, input) {
        Ok(tree) => {
            let view = show_tree(alloc, &tree, input, notes);
            drop(tree);
            view
        }
        Err(TreeFault::Syntax) => Ok(Some(show_text(alloc, input, notes)?)),
        Err(TreeFault::Memory) => Err(Memory),
    }
}

fn show_tree(
    alloc: Global,
    tree: &Json,
    input: &[u8],
    notes: &mut Notes,
) -> Result<Option<View>, Memory>
    requires { IsWellFormed tree.now }
    ensures { IfOk result (λ view. view ≡ object_view tree.now (as_object tree.now)) }
{
    match tree {
        Json::Object(_) => Ok(Some(show_set(alloc, tree, input, notes)?)),
        _ => show_list(alloc, tree, input, notes),
    }
}

fn show_set(alloc: Global, tree: &Json, input: &[u8], notes: &mut Notes) -> Result<View, Memory>
    requires { IsWellFormed tree.now }
    ensures { IfOk result (λ view. view ≡ set_found (key_set_in tree.now)) }
{
    let view = set_view(alloc, tree)?;
    if view.refused {
        explain_keys_input(alloc, input, notes);
    }
    Ok(view)
}

fn show_list(
    alloc: Global,
    tree: &Json,
    input: &[u8],
    notes: &mut Notes,
) -> Result<Option<View>, Memory>
    ensures { IfOk result (λ view. view ≡ list_view (texts_of tree.now)) }
{
    match copied_texts(alloc, tree)? {
        Some(texts) => {
            let view = chain_view(alloc, texts.as_slice())?;
            if view.refused {
                explain_chain(alloc, texts.as_slice(), notes);
            }
            Ok(Some(view))
        }
        None => {
            explain_no_list(alloc, input, notes);
            Ok(None)
        }
    }
}

#[tactic(auto, unfolding(crate::specs::Views::text_view))]
fn show_text(alloc: Global, text: &[u8], notes: &mut Notes) -> Result<View, Memory>
    ensures { IfOk result (λ view. view ≡ text_view text.now) }
{
    let mut out = Text::new(alloc);
    append_sections(alloc, &mut out, text)?;
    let found = text_found(alloc, text)?;
    explain_text(alloc, text, &found, notes);
    out.append(found.text.as_slice())?;
    append_unverified(&mut out)?;
    Ok(View {
        refused: found.refused,
        text: out,
    })
}
