// What is asked of the link.

ghost use Rattle.std.specs.Prelude.{◌≡◌, ◌<◌, OnErr, OnOk, bytes_eq};
ghost use Rattle.std.specs.List.{position};
ghost use Rattle.resolve_round.specs.Asking.{HasFetched};
ghost use Rattle.resolve_round.specs.Courses.{Counts};
ghost use Rattle.resolve_round.specs.Linking.{TriesLink, UsesLink, link_seen};
ghost use Rattle.resolve_round.specs.Walking.{Stumbled, Walked};

use crate::trace::{Ask, Got, Search};
use fed_base::{Duplicate, Memory, Text};
use fed_ports::{Link, LinkFault, Page};
use std::alloc::Global;

// The place of the ask of a URL, where it was asked.
pub(crate) fn place_of(asks: &[Ask], url: &[u8]) -> Option<usize>
    ensures { result ≡ position (λ ask. bytes_eq ask.url url.now) asks.now }
{
    asks.iter().position(|ask| ask.url.as_slice() == url)
}

// The same page, of whose document all that is kept shares the bytes from now on.
fn shared(alloc: Global, page: Page) -> Page
    ensures { result ≡ page }
{
    match page {
        Page::Document(text) => Page::Document(text.shared(alloc)),
        page => page,
    }
}

// Asks the link for a page, and adds what was got. The room is taken before the call.
pub(crate) fn fetch<L: Link>(
    alloc: Global,
    search: &mut Search,
    link: &mut L,
    url: &Text,
    most: u64,
) -> Result<(), Memory>
    requires counts { Counts search.old }
    requires room { search.old.calls < most }
    ensures ok { OnOk result (HasFetched (L.web link.old) search.old url.now search.new) }
    ensures err { OnErr result (search.new ≡ search.old) }
    ensures used { OnOk result (UsesLink 0 (link_seen (L.calls link.old) (L.link_faults link.old) (L.web link.old))
        (link_seen (L.calls link.new) (L.link_faults link.new) (L.web link.new)) search.old search.new) }
    ensures tried { OnErr result (TriesLink (link_seen (L.calls link.old) (L.link_faults link.old) (L.web link.old))
        (link_seen (L.calls link.new) (L.link_faults link.new) (L.web link.new)) search.old search.new) }
    ensures walked { OnOk result (Walked L.gave link.old link.new search.old.asks search.new.asks) }
    ensures stumbled { OnErr result (Stumbled L.gave link.old link.new search.old.asks search.new.asks) }
{
    let told = url.copy(alloc)?;
    let at = search.asks.len();
    search.asks.push(Ask {
        url: Text::new(alloc),
        got: Got::Fault,
    })?;
    match link.get(alloc, url) {
        Ok(page) => {
            search.asks.set(
                at,
                Ask {
                    url: told,
                    got: Got::Fetched(shared(alloc, page)),
                },
            );
            search.calls += 1;
            Ok(())
        }
        Err(LinkFault::Failed) => {
            search.asks.set(
                at,
                Ask {
                    url: told,
                    got: Got::Fault,
                },
            );
            search.calls += 1;
            search.faults += 1;
            Ok(())
        }
        Err(LinkFault::Memory) => {
            search.asks.pop();
            Err(Memory)
        }
    }
}
