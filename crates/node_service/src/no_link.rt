// A link that gets no page.

ghost use Rattle.std.specs.Prelude.{None};

use fed_ports::{Link, LinkFault, Page, Text};
use std::alloc::Global;

/// A link to which no URL has a route: what an authority is handed, which asks for no page.
#[derive(Drop)]
pub(crate) struct NoLink {
    // How many calls there were.
    calls: u64,
}

impl NoLink {
    pub(crate) fn new() -> NoLink {
        NoLink { calls: 0 }
    }
}

impl Link for NoLink {
    ghost calls = { λ link. link.calls };

    ghost link_faults = { λ _. 0 };

    ghost web = { λ _. None };

    ghost gave = { λ old new url result. Unit {0} };

    fn get(&mut self, _alloc: Global, _url: &Text) -> Result<Page, LinkFault> {
        self.calls = self.calls.saturating_add(1);
        Ok(Page::NoRoute)
    }
}
