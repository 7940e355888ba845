// Pages that a client gets.

use crate::words::{add_number, bytes, counted, cut, number, show};
use fed_base::{Memory, Seq, Text};
use fed_net::MemoryNetwork;
use fed_ports::{Address, Link, LinkFault, Page};
use http_plain::{HttpLink, Poster, Route};
use std::alloc::Global;

fn route_to(alloc: Global, host: &str) -> Result<Seq<Route>, Memory> {
    let mut routes = Seq::new(alloc);
    let to = Address {
        ip: [127, 0, 0, 1],
        port: 8080,
    };
    let host = Text::of(alloc, host.as_bytes())?;
    routes.push(Route { host, to })?;
    Ok(routes)
}

fn network(alloc: Global, answer: Text, failing: &[u64]) -> Result<MemoryNetwork, Memory> {
    let mut answers = Seq::new(alloc);
    answers.push(answer)?;
    MemoryNetwork::new(alloc, answers, Seq::new(alloc), 5000, failing, 2000)
}

// A link with one route, over a network that gives that answer, and whose call of that number fails.
fn link(
    alloc: Global,
    host: &str,
    answer: Text,
    failing: &[u64],
) -> Result<HttpLink<MemoryNetwork>, Memory> {
    let routes = route_to(alloc, host)?;
    let net = network(alloc, answer, failing)?;
    Ok(HttpLink::new(net, routes))
}

// Adds a page.
fn add_page(alloc: Global, out: &mut Text, page: &Page) -> Result<(), Memory> {
    match page {
        Page::Document(body) => {
            out.append(b"Document ")?;
            show(alloc, out, body.as_slice())
        }
        Page::Refusal(status) => {
            out.append(b"Refusal ")?;
            add_number(alloc, out, u64::from(*status))
        }
        Page::Garbled => out.append(b"Garbled"),
        Page::TooLong => out.append(b"TooLong"),
        Page::NoRoute => out.append(b"NoRoute"),
    }
}

// Adds what a call answers.
fn add_answer(
    alloc: Global,
    out: &mut Text,
    answer: Result<Page, LinkFault>,
) -> Result<(), Memory> {
    match answer {
        Ok(page) => {
            let added = add_page(alloc, out, &page);
            drop(page);
            added
        }
        Err(LinkFault::Failed) => out.append(b"Failed"),
        Err(LinkFault::Memory) => Err(Memory),
    }
}

/// The page that the link gets under the URL.
pub(crate) fn got<L: Link>(alloc: Global, link: &mut L, url: &str) -> Result<Text, Memory> {
    let answer = link.get(alloc, &Text::of(alloc, url.as_bytes())?);
    let mut out = Text::new(alloc);
    add_answer(alloc, &mut out, answer)?;
    Ok(out)
}

/// The page of a URL with a route to that host, where these bytes come.
pub(crate) fn page(alloc: Global, given: &str) -> Result<Text, Memory> {
    let (host, rest) = cut(given);
    let (url, parts) = cut(rest);
    let mut link = link(alloc, host, bytes(alloc, parts)?, &[])?;
    let told = got(alloc, &mut link, url);
    drop(link);
    told
}

fn add_sent(alloc: Global, out: &mut Text, net: &MemoryNetwork) -> Result<(), Memory> {
    match net.sent(0) {
        Some(message) => {
            out.push(b' ')?;
            show(alloc, out, message)
        }
        None => out.append(b", nothing is opened"),
    }
}

fn with_sent(alloc: Global, mut told: Text, net: &MemoryNetwork) -> Result<Text, Memory> {
    add_sent(alloc, &mut told, net)?;
    Ok(told)
}

// What a call answered, and what was sent for it.
fn told_and_sent(
    alloc: Global,
    told: Result<Text, Memory>,
    link: HttpLink<MemoryNetwork>,
) -> Result<Text, Memory> {
    let net = link.into_net();
    let told = match told {
        Ok(told) => with_sent(alloc, told, &net),
        Err(Memory) => Err(Memory),
    };
    drop(net);
    told
}

/// What is sent for a URL with a route to that host.
pub(crate) fn sent(alloc: Global, given: &str) -> Result<Text, Memory> {
    let (host, url) = cut(given);
    let mut link = link(alloc, host, Text::new(alloc), &[])?;
    let told = got(alloc, &mut link, url);
    told_and_sent(alloc, told, link)
}

// The page with which a POST of a form is answered.
fn post(
    alloc: Global,
    link: &mut HttpLink<MemoryNetwork>,
    url: &str,
    form: &str,
) -> Result<Text, Memory> {
    let url = Text::of(alloc, url.as_bytes())?;
    let form = Text::of(alloc, form.as_bytes())?;
    let answer = link.post(alloc, &url, &form);
    let mut out = Text::new(alloc);
    add_answer(alloc, &mut out, answer)?;
    Ok(out)
}

/// The page where a form is posted to a URL with a route to that host and these bytes come, and what is sent.
pub(crate) fn posted(alloc: Global, given: &str) -> Result<Text, Memory> {
    let (host, rest) = cut(given);
    let (url, rest) = cut(rest);
    let (form, parts) = cut(rest);
    let mut link = link(alloc, host, bytes(alloc, parts)?, &[])?;
    let told = post(alloc, &mut link, url, form);
    told_and_sent(alloc, told, link)
}

/// The page where these bytes come and the network's call of that number fails.
pub(crate) fn lost(alloc: Global, given: &str) -> Result<Text, Memory> {
    let (call, parts) = cut(given);
    let mut link = link(alloc, "a.example", bytes(alloc, parts)?, &[number(call)])?;
    let told = got(alloc, &mut link, "https://a.example/");
    drop(link);
    told
}

fn is_garbled(alloc: Global, url: &Text, answer: &[u8]) -> Result<bool, Memory> {
    let mut link = link(alloc, "a.example", Text::of(alloc, answer)?, &[])?;
    let page = link.get(alloc, url);
    drop(link);
    let garbled = matches!(page, Ok(Page::Garbled));
    drop(page);
    Ok(garbled)
}

/// How often the page is garbled where the bytes are cut before each of them in turn, and how many they are.
pub(crate) fn cut_short(alloc: Global, given: &str) -> Result<Text, Memory> {
    let whole = bytes(alloc, given)?;
    let whole = whole.as_slice();
    let url = Text::of(alloc, b"https://a.example/")?;
    let mut garbled: u64 = 0;
    for len in 0..whole.len() {
        if is_garbled(alloc, &url, &whole[..len])? {
            garbled = garbled.saturating_add(1);
        }
    }
    counted(alloc, b"Garbled ", garbled, whole.len() as u64)
}
