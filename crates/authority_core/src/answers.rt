// The responses of a node.

ghost use Rattle.std.specs.Prelude.{◌≡◌, ◌≤◌, IfOk, Some, length};
ghost use Rattle.std.specs.Str.{IsUtf8};
ghost use Rattle.fed_json.specs.Compact.{compact};
ghost use Rattle.fed_json.specs.Forms.{IsWhole, nesting};
ghost use Rattle.fed_json.specs.Reading.{tree_in};
ghost use Rattle.jws_form.specs.Compact.{max_bytes};
ghost use Rattle.sealed.specs.Sealing.{HasParts, IsObject, IsSealedFor, sealed_text};
ghost use Rattle.authority_core.specs.Answers.{good, not_found};

use fed_base::{Memory, Seq, Text};
use fed_json::{Json, text_member, write_tree};
use http_plain::{Media, Response};
use sealed::seal;
use slh_dsa::KeyPair;
use std::alloc::Global;

/// Claims of a type, signed.
pub(crate) fn signed(
    alloc: Global,
    keys: &KeyPair,
    media: Media,
    typ: &[u8],
    claims: &Json,
) -> Result<Response, Memory>
    requires typ { IsUtf8 typ.now }
    requires whole { IsWhole claims.now }
    requires object { IsObject claims.now }
    ensures response { IfOk result (λ response. response ≡ good media (sealed_text keys.now typ.now claims.now)) }
    ensures sealed { IfOk result (λ response. IsSealedFor keys.now response.body) }
    ensures splits { IfOk result (λ response. length response.body ≤ max_bytes
        → HasParts keys.now typ.now (compact claims.now) response.body) }
    ensures reads_back { IfOk result (λ _. nesting claims.now ≤ 127 → tree_in (compact claims.now) ≡ Some claims.now) }
{
    let typ = Text::of(alloc, typ)?;
    let body = seal(alloc, keys, &typ, claims)?;
    Ok(Response {
        status: 200,
        media,
        body,
    })
}

/// A tree as JSON.
pub(crate) fn json(alloc: Global, tree: &Json) -> Result<Response, Memory>
    requires { IsWhole tree.now }
    ensures { IfOk result (λ response. response ≡ good Media.Json (compact tree.now)) }
{
    let body = write_tree(alloc, tree)?;
    Ok(Response {
        status: 200,
        media: Media::Json,
        body,
    })
}

/// The entity isn't known.
pub(crate) fn not_found(alloc: Global) -> Result<Response, Memory>
    ensures { IfOk result (λ response. response ≡ not_found) }
{
    let mut members = Seq::new(alloc);
    members.push(text_member(alloc, b"error", b"not_found")?)?;
    members.push(text_member(alloc, b"error_description", b"no such entity")?)?;
    let body = write_tree(alloc, &Json::Object(members))?;
    Ok(Response {
        status: 404,
        media: Media::Json,
        body,
    })
}
