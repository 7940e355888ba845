// Where an entity's documents are asked for.

ghost use Rattle.std.specs.Prelude.{◌≡◌, IfOk};
ghost use Rattle.entity_id.specs.Urls.{base_of, fetch_url_of};

use crate::identifier::EntityId;
use fed_base::{Memory, Text};
use std::alloc::Global;

/// The text without the slash at its end, where one stands there. Paths of a federation's documents are put behind it.
#[tactic(auto, unfolding(crate::specs::Urls::base_of))]
pub fn without_slash(text: &[u8]) -> &[u8]
    ensures { result.now ≡ base_of text.now }
{
    text.strip_suffix(b"/").unwrap_or(text)
}

/// The URL at which a superior's fetch endpoint is asked about the subject (OpenID Federation 1.0 section 8.1.1). The
/// parameter `sub` is added to the query that the endpoint has, if it has one.
#[tactic(auto, unfolding(crate::specs::Urls::fetch_url_of))]
pub fn fetch_url(alloc: Global, endpoint: &Text, subject: &EntityId) -> Result<Text, Memory>
    ensures { IfOk result (λ url. url ≡ fetch_url_of endpoint.now subject.now) }
{
    let mut url = Text::of(alloc, endpoint.as_slice())?;
    let has_query = endpoint.as_slice().contains(&b'?');
    url.append(if has_query { b"&sub=" } else { b"?sub=" })?;
    for piece in form_urlencoded::byte_serialize(subject.text()) {
        url.append(piece.as_bytes())?;
    }
    Ok(url)
}
