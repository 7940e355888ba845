// Where a URL is asked for, and by which messages.

ghost use Rattle.std.specs.Prelude.{◌≡◌, IfOk};
ghost use Rattle.std.specs.String.{string_bytes};
ghost use Rattle.http_plain.specs.Clients.{address_of, head_of_post, is_web, message_of, post_of, route_to, url_in};
ghost use Rattle.http_plain.specs.Plans.{IsTarget};
ghost use Rattle.url.specs.Parts.{text_between};
ghost use Rattle.url.specs.declared.slicing.Position.TheVariants.{BeforeHost, AfterPort, BeforePath, AfterQuery};

use crate::route::Route;
use fed_ports::{Address, Memory};
use std::alloc::Global;
use url::{ParseError, Position, Url};

// A URL of the web and the address at which it is asked for.
#[derive(Drop)]
pub(crate) struct Target {
    pub url: Url,
    pub to: Address,
}

// Whether the scheme is one of the web.
fn is_web(url: &Url) -> bool
    ensures { result ≡ is_web url.now }
{
    url.scheme() == "http" || url.scheme() == "https"
}

// The URL of the web that the bytes are.
#[tactic(auto, unfolding(crate::specs::Clients::url_in))]
fn web_url(alloc: Global, text: &[u8]) -> Result<Option<Url>, Memory>
    ensures { IfOk result (λ url. url ≡ url_in text.now) }
{
    let Ok(text) = std::str::from_utf8(text) else {
        return Ok(None);
    };
    match Url::parse(alloc, text) {
        Ok(url) => if is_web(&url) {
            Ok(Some(url))
        } else {
            Ok(None)
        },
        Err(ParseError::OutOfMemory | ParseError::Overflow) => Err(Memory),
        Err(_) => Ok(None),
    }
}

// The address of the first route to that host.
#[tactic(auto, unfolding(crate::specs::Clients::route_to))]
fn route_to(routes: &[Route], host: &[u8]) -> Option<Address>
    ensures { result ≡ route_to routes.now host.now }
{
    for route in routes {
        if route.host.as_slice() == host {
            return Some(route.to);
        }
    }
    None
}

// The address for a URL.
#[tactic(auto, unfolding(crate::specs::Clients::address_of))]
fn address(routes: &[Route], url: &Url) -> Option<Address>
    ensures { result ≡ address_of routes.now url.now }
{
    route_to(routes, url.host_str()?.as_bytes())
}

// The path and query of a URL, as a request line has them (RFC 9112 section 3.2.1).
fn path(url: &Url) -> &str
    ensures { result.now ≡ text_between url.now BeforePath AfterQuery }
{
    url.slice(Position::BeforePath, Position::AfterQuery)
}

// The host of a URL, with the port that the URL keeps.
fn host(url: &Url) -> &str
    ensures { result.now ≡ text_between url.now BeforeHost AfterPort }
{
    url.slice(Position::BeforeHost, Position::AfterPort)
}

// The message that asks for a URL.
pub(crate) fn get_message(alloc: Global, url: &Url) -> Result<String, Memory>
    ensures { IfOk result (λ text. string_bytes text ≡ message_of url.now) }
{
    let target = path(url);
    let host = host(url);
    match format!(in alloc;
        "GET {target} HTTP/1.1\r\nHost: {host}\r\nAccept: */*\r\nConnection: close\r\n\r\n"
    ) {
        Ok(text) => Ok(text),
        Err(_) => Err(Memory),
    }
}

// The message that posts a form to a URL.
pub(crate) fn post_message(alloc: Global, url: &Url, form: &[u8]) -> Result<Vec<u8>, Memory>
    ensures { IfOk result (λ message. message.items ≡ post_of form.now url.now) }
{
    let mut message = post_head(alloc, url, form.len())?.into_bytes();
    message.extend_from_slice(form)?;
    Ok(message)
}

// The message's head, for a form of so many bytes.
fn post_head(alloc: Global, url: &Url, size: usize) -> Result<String, Memory>
    ensures { IfOk result (λ text. string_bytes text ≡ head_of_post url.now size) }
{
    let target = path(url);
    let host = host(url);
    match format!(in alloc;
        "POST {target} HTTP/1.1\r\nHost: {host}\r\nAccept: */*\r\nContent-Type: application/x-www-form-urlencoded\r\n\
         Content-Length: {size}\r\nConnection: close\r\n\r\n"
    ) {
        Ok(text) => Ok(text),
        Err(_) => Err(Memory),
    }
}

// The target of a URL, where there is a route to it.
pub(crate) fn target_of(
    alloc: Global,
    routes: &[Route],
    text: &[u8],
) -> Result<Option<Target>, Memory>
    ensures { IfOk result (λ target. IsTarget routes.now text.now target) }
{
    let Some(url) = web_url(alloc, text)? else {
        return Ok(None);
    };
    match address(routes, &url) {
        Some(to) => Ok(Some(Target { url, to })),
        None => Ok(None),
    }
}
