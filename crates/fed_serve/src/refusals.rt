// The response that is the same for all nodes (OpenID Federation 1.0 section 8.9).

ghost use Rattle.std.specs.Prelude.{◌≡◌, IfOk};
ghost use Rattle.fed_serve.specs.Responses.{not_a_request};

use fed_base::{Memory, Text};
use http_plain::{Media, Response};
use std::alloc::Global;

const NOT_A_REQUEST: &[u8] =
    b"{\"error\":\"invalid_request\",\"error_description\":\"not a request of this node\"}";

/// What is no request of the node is answered with this.
pub(crate) fn not_a_request(alloc: Global) -> Result<Response, Memory>
    ensures { IfOk result (λ response. response ≡ not_a_request) }
{
    Ok(Response {
        status: 400,
        media: Media::Json,
        body: Text::of(alloc, NOT_A_REQUEST)?,
    })
}
