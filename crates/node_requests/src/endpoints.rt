// Which request of a node is asked for where.

ghost use Rattle.std.specs.Prelude.{◌≡◌};
ghost use Rattle.node_requests.specs.Steps.{kind_at, kind_had, kind_named};

use crate::kind::Kind;
use http_plain::Method;

/// Which kind of request is made by a method and what stands behind the node's path, where its parameters and its body are of their form.
pub(crate) fn kind_at(resolves: bool, method: Method, rest: &[u8]) -> Kind
    ensures { result ≡ kind_at resolves method rest.now }
{
    kind_had(resolves, kind_named(method, rest))
}

// The kind, where a node has it: those of a resolver only where it resolves.
fn kind_had(resolves: bool, kind: Kind) -> Kind
    ensures { result ≡ kind_had resolves kind }
{
    match kind {
        Kind::Resolve | Kind::AnchorKeys if !resolves => Kind::Other,
        _ => kind,
    }
}

fn kind_named(method: Method, rest: &[u8]) -> Kind
    ensures { result ≡ kind_named method rest.now }
{
    match method {
        Method::Get => kind_got(rest),
        Method::Post => kind_posted(rest),
    }
}

fn kind_got(rest: &[u8]) -> Kind
    ensures { result ≡ kind_named Method.Get rest.now }
{
    if rest == b"/.well-known/openid-federation".as_slice() {
        Kind::Configuration
    } else if rest == b"/fetch".as_slice() {
        Kind::Fetch
    } else if rest == b"/list".as_slice() {
        Kind::List
    } else if rest == b"/historical-keys".as_slice() {
        Kind::HistoricalKeys
    } else if rest == b"/resolve".as_slice() {
        Kind::Resolve
    } else {
        Kind::Other
    }
}

fn kind_posted(rest: &[u8]) -> Kind
    ensures { result ≡ kind_named Method.Post rest.now }
{
    if rest == b"/trust-mark-status".as_slice() {
        Kind::Status
    } else if rest == b"/anchor-keys".as_slice() {
        Kind::AnchorKeys
    } else {
        Kind::Other
    }
}
