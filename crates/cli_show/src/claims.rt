// The claims of a signed text alone.

ghost use Rattle.std.specs.Prelude.{◌≡◌, IfOk, is_some};
ghost use Rattle.std.specs.Option.{option_and_then, option_copied};
ghost use Rattle.fed_json.specs.Reading.{tree_in};
ghost use Rattle.fed_json.specs.Trees.{as_object};
ghost use Rattle.cli_show.specs.Claims.{claims_view, is_object, payload_found};

use crate::finding::text_found;
use crate::lines::{good, refused};
use crate::notes::explain_text;
use crate::parts::second_part;
use crate::view::View;
use base64url::decode;
use fed_base::{Memory, Text};
use fed_json::{Json, TreeFault, read_tree};
use file_notes::explain_other_claims;
use plain_notes::Notes;
use std::alloc::Global;

/// The claims of the signed text that the input is, as they stand: the JSON object that was signed, byte for byte, and a line end. Or the
/// first reason why the input isn't such a text, as [`show`](crate::show) tells it.
#[tactic(auto, unfolding(crate::specs::Claims::claims_view))]
pub fn show_claims(alloc: Global, input: &[u8], notes: &mut Notes) -> Result<View, Memory>
    ensures { IfOk result (λ view. view ≡ claims_view input.now) }
{
    let found = text_found(alloc, input)?;
    explain_text(alloc, input, &found, notes);
    if found.refused {
        return Ok(found);
    }
    drop(found);
    let payload = decode(alloc, second_part(input))?;
    payload_found(alloc, payload, notes)
}

// The payload on a line, where it is an object.
fn payload_found(alloc: Global, payload: Option<Text>, notes: &mut Notes) -> Result<View, Memory>
    ensures { IfOk result (λ view. view ≡ payload_found payload) }
{
    if let Some(payload) = payload {
        if is_object(alloc, payload.as_slice())? {
            return good(payload);
        }
    }
    explain_other_claims(alloc, notes);
    refused(alloc, b"Tree")
}

// Whether the bytes are the JSON text of an object.
fn is_object(alloc: Global, bytes: &[u8]) -> Result<bool, Memory>
    ensures { IfOk result (λ is. is ≡ is_object bytes.now) }
{
    match read_tree(alloc, bytes) {
        Ok(tree) => {
            let is = matches!(tree, Json::Object(_));
            drop(tree);
            Ok(is)
        }
        Err(TreeFault::Syntax) => Ok(false),
        Err(TreeFault::Memory) => Err(Memory),
    }
}
