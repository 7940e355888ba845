// The header and the claims of a signed text.

ghost use Rattle.std.specs.Prelude.{◌≡◌, ◌∷◌, ◌++◌, [], IfOk, MatchOption, OnOk, Some};
ghost use Rattle.fed_json.specs.Reading.{tree_in};
ghost use Rattle.jws_form.specs.Faults.{part};
ghost use Rattle.jws_form.specs.Splitting.{parts_of};
ghost use Rattle.cli_show.specs.Views.{part_tree, section_of, sections};

use crate::indented::show_json;
use base64url::decode;
use fed_base::{Memory, Text};
use fed_json::{Json, TreeFault, read_tree};
use std::alloc::Global;

/// Appends the header and the claims of the text, as far as they are JSON in base64url.
#[tactic(auto, unfolding(crate::specs::Views::sections))]
pub(crate) fn append_sections(alloc: Global, out: &mut Text, text: &[u8]) -> Result<(), Memory>
    ensures { OnOk result (out.new ≡ out.old ++ sections text.now) }
{
    let (header, claims) = two_parts(text);
    append_section(alloc, out, b"header ", header)?;
    append_section(alloc, out, b"claims ", claims)
}

fn append_section(alloc: Global, out: &mut Text, title: &[u8], piece: &[u8]) -> Result<(), Memory>
    ensures { OnOk result (out.new ≡ out.old ++ section_of title.now (part_tree piece.now)) }
{
    match part_tree(alloc, piece)? {
        Some(tree) => {
            let appended = append_tree(alloc, out, title, &tree);
            drop(tree);
            appended
        }
        None => Ok(()),
    }
}

fn append_tree(alloc: Global, out: &mut Text, title: &[u8], tree: &Json) -> Result<(), Memory>
    ensures { OnOk result (out.new ≡ out.old ++ section_of title.now (Some tree.now)) }
{
    let lines = show_json(alloc, tree)?;
    out.append(title)?;
    out.append(lines.as_slice())?;
    out.push(b'\n')
}

// The tree whose JSON text in base64url the piece is.
fn part_tree(alloc: Global, piece: &[u8]) -> Result<Option<Json>, Memory>
    ensures { IfOk result (λ tree. tree ≡ part_tree piece.now) }
{
    match decode(alloc, piece)? {
        Some(bytes) => read_part(alloc, bytes.as_slice()),
        None => Ok(None),
    }
}

fn read_part(alloc: Global, bytes: &[u8]) -> Result<Option<Json>, Memory>
    ensures { IfOk result (λ tree. tree ≡ tree_in bytes.now) }
{
    match read_tree(alloc, bytes) {
        Ok(tree) => Ok(Some(tree)),
        Err(TreeFault::Syntax) => Ok(None),
        Err(TreeFault::Memory) => Err(Memory),
    }
}

/// The second part between full stops; one that isn't there is empty.
pub(crate) fn second_part(text: &[u8]) -> &[u8]
    ensures { result.now ≡ part text.now 1 }
{
    let (_, claims) = two_parts(text);
    claims
}

// The first two parts between full stops; one that isn't there is empty.
fn two_parts(text: &[u8]) -> (&[u8], &[u8])
    ensures first { result.0.now ≡ part text.now 0 }
    ensures second { result.1.now ≡ part text.now 1 }
{
    match split_once(text) {
        Some((first, rest)) => (first, first_part(rest)),
        None => (text, b""),
    }
}

fn first_part(text: &[u8]) -> &[u8]
    ensures { result.now ≡ part text.now 0 }
{
    match split_once(text) {
        Some((first, _)) => first,
        None => text,
    }
}

// What stands before the first full stop of a text, and behind it.
fn split_once(text: &[u8]) -> Option<(&[u8], &[u8])>
    ensures { MatchOption result (parts_of text.now ≡ text.now ∷ [])
        (λ p. parts_of text.now ≡ p.0.now ∷ parts_of p.1.now) }
{
    match text.iter().position(|&byte| byte == b'.') {
        Some(at) => Some((&text[..at], &text[at + 1..])),
        None => None,
    }
}
