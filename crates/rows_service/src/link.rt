// A link of which one call is held.

ghost use Rattle.std.specs.Prelude.{Some};
ghost use Rattle.fed_net.specs.MemoryLinks.{link_web};

use crate::flag::Flag;
use fed_base::{Memory, Seq, Text};
use fed_net::{MemoryLink, NamedPage};
use fed_ports::{Link, LinkFault, Page};
use std::alloc::Global;

// How many calls it answers at most.
const CALLS: u64 = 1000;

/// At which call a link raises a flag, the first call being 1, and for which flag it then waits before it answers, if for any.
#[derive(Clone, Copy, Drop)]
pub(crate) struct Hold<'a> {
    pub(crate) call: u64,
    pub(crate) called: &'a Flag,
    pub(crate) until: Option<&'a Flag>,
}

/// A link of given pages, of which one call is held. Where what the call waits for doesn't come, the link fails.
#[derive(Drop)]
pub(crate) struct HeldLink<'a> {
    link: MemoryLink,
    hold: Hold<'a>,
    calls: u64,
    faults: u64,
}

impl<'a> HeldLink<'a> {
    /// A link of which no call was made.
    pub(crate) fn new(
        alloc: Global,
        pages: Seq<NamedPage>,
        hold: Hold<'a>,
    ) -> Result<HeldLink<'a>, Memory> {
        Ok(HeldLink {
            link: MemoryLink::new(alloc, pages, &[], CALLS)?,
            hold,
            calls: 0,
            faults: 0,
        })
    }

    /// How many calls there were.
    pub(crate) fn calls(&self) -> u64 {
        self.calls
    }
}

// Whether what is waited for at the call of this number has come.
fn is_let_go(hold: Hold<'_>, call: u64) -> bool {
    if call != hold.call {
        return true;
    }
    hold.called.raise();
    match hold.until {
        Some(flag) => flag.is_met(),
        None => true,
    }
}

impl<'a> Link for HeldLink<'a> {
    ghost use Rattle.std.specs.Prelude.{Some};
    ghost use Rattle.fed_net.specs.MemoryLinks.{link_web};

    ghost calls = { λ link. link.calls };

    ghost link_faults = { λ link. link.faults };

    ghost web = { λ link. Some (link_web link.link) };

    ghost gave = { λ _ _ _ _. Unit {0} };

    fn get(&mut self, alloc: Global, url: &Text) -> Result<Page, LinkFault> {
        self.calls = self.calls.saturating_add(1);
        if !is_let_go(self.hold, self.calls) {
            self.faults = self.faults.saturating_add(1);
            return Err(LinkFault::Failed);
        }
        let page = self.link.get(alloc, url);
        if let Err(LinkFault::Failed) = &page {
            self.faults = self.faults.saturating_add(1);
        }
        page
    }
}
