// Peers and links in memory.

use crate::answers::status;
use crate::asks::told;
use crate::pages::got;
use crate::words::{bytes, cut, show};
use fed_base::{Memory, Seq, Text};
use fed_net::{MemoryLink, MemoryPeer, NamedPage};
use fed_ports::Page;
use http_plain::{Media, Response, WriteEnd, read_request, write_response};
use std::alloc::Global;

fn answer(alloc: Global, peer: &mut MemoryPeer) -> Result<(), Memory> {
    let response = Response {
        status: status("404"),
        media: Media::Json,
        body: Text::of(alloc, b"{}")?,
    };
    let written = write_response(alloc, peer, &response);
    drop(response);
    match written {
        Err(WriteEnd::Memory) => Err(Memory),
        _ => Ok(()),
    }
}

fn answered(alloc: Global, peer: &mut MemoryPeer) -> Result<Text, Memory> {
    let mut out = told(alloc, read_request(alloc, peer))?;
    answer(alloc, peer)?;
    out.append(b" => ")?;
    show(alloc, &mut out, peer.as_slice())?;
    Ok(out)
}

/// The request of a peer, and what the peer holds once it was answered.
pub(crate) fn peer(alloc: Global, given: &str) -> Result<Text, Memory> {
    let sent = bytes(alloc, given)?;
    let mut peer = MemoryPeer::new(alloc, sent.as_slice(), 1000, &[], &[], 100)?;
    let told = answered(alloc, &mut peer);
    drop(peer);
    told
}

fn link_to(alloc: Global, named: &str) -> Result<MemoryLink, Memory> {
    let mut pages = Seq::new(alloc);
    pages.push(NamedPage {
        url: Text::of(alloc, named.as_bytes())?,
        page: Page::Document(Text::of(alloc, b"ab")?),
    })?;
    MemoryLink::new(alloc, pages, &[], 10)
}

/// The page of a URL where a link has one page, under the URL before it.
pub(crate) fn linked(alloc: Global, given: &str) -> Result<Text, Memory> {
    let (named, url) = cut(given);
    let mut link = link_to(alloc, named)?;
    let told = got(alloc, &mut link, url);
    drop(link);
    told
}
