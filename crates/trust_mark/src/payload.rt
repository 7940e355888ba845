// The payload of a text of one type.

ghost use Rattle.std.specs.Prelude.{◌≡◌};
ghost use Rattle.std.specs.Option.{option_copied};
ghost use Rattle.trust_mark.specs.Claims.{Gives, has_type, payload_of};

use crate::fault::MarkFault;
use fed_base::Text;
use fed_json::{Json, TreeFault, read_tree};
use jws_form::Compact;
use std::alloc::Global;

/// The tree of the payload, where the header's type is this one.
#[tactic(auto, unfolding(crate::specs::Claims::payload_of))]
pub(crate) fn payload(alloc: Global, compact: &Compact, typ: &[u8]) -> Result<Json, MarkFault>
    ensures { Gives result (payload_of typ.now compact.now) }
{
    if !has_type(compact.typ.as_ref(), typ) {
        return Err(MarkFault::Typ);
    }
    match read_tree(alloc, compact.payload.as_slice()) {
        Ok(tree) => Ok(tree),
        Err(TreeFault::Syntax) => Err(MarkFault::Tree),
        Err(TreeFault::Memory) => Err(MarkFault::Memory),
    }
}

fn has_type(found: Option<&Text>, typ: &[u8]) -> bool
    ensures { result ≡ has_type typ.now (option_copied found.entry) }
{
    found.is_some_and(|found| found.as_slice() == typ)
}
