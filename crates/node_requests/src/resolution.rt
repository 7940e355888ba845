// What a resolver is asked.

ghost use Rattle.std.specs.Prelude.{◌≡◌, IfOk};
ghost use Rattle.node_requests.specs.Steps.{resolution_in};

use crate::parameters::{identifier, values};
use fed_base::Memory;
use http_plain::Pair;
use resolve_round::ResolveRequest;
use std::alloc::Global;

/// What the parameters ask a resolver (OpenID Federation 1.0 section 8.3.1), and `None` where they aren't of that form. The entity types
/// are in their order and with repeats.
#[tactic(auto, unfolding(crate::specs::Steps::resolution_in))]
pub(crate) fn read_resolution(
    alloc: Global,
    pairs: &[Pair],
) -> Result<Option<ResolveRequest>, Memory>
    ensures { IfOk result (λ resolution. resolution ≡ resolution_in pairs.now) }
{
    let Some(sub) = identifier(alloc, pairs, b"sub")? else {
        return Ok(None);
    };
    let Some(anchor) = identifier(alloc, pairs, b"trust_anchor")? else {
        return Ok(None);
    };
    let types = values(alloc, pairs, b"entity_type")?;
    Ok(Some(ResolveRequest { sub, anchor, types }))
}
