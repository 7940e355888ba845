// Posts over a link.

ghost use Rattle.std.specs.Prelude.{◌≡◌};
ghost use Rattle.heeded_reply.specs.Stages.{asker_link};

use crate::arrivals::{Arrival, Arrivals};
use fed_base::Text;
use fed_ports::{LinkFault, Page};
use http_plain::Poster;
use mark_status::Asker;
use std::alloc::Global;

/// An asker over a link: each form is posted by it.
#[derive(Drop)]
pub(crate) struct LinkAsker<L> {
    link: L,
    calls: u64,
    arrivals: Arrivals,
}

impl<L> LinkAsker<L> {
    /// An asker over that link, of which no call was made.
    pub(crate) fn new(link: L) -> LinkAsker<L>
        ensures { asker_link result ≡ link }
    {
        LinkAsker {
            link,
            calls: 0,
            arrivals: Arrivals::new(),
        }
    }

    /// What came of its posts.
    pub(crate) fn arrivals(&self) -> Arrivals {
        self.arrivals
    }

    /// The link that it holds.
    pub(crate) fn into_link(self) -> L
        ensures { result ≡ asker_link self }
    {
        self.link
    }
}

impl<L: Poster> Asker for LinkAsker<L> {
    ghost use Rattle.heeded_reply.specs.Stages.{asked_over, posted_over};

    ghost asked = { λ asker. asked_over L.post_faults asker };

    ghost gave = { λ old new url body result. posted_over L.posted old new url body result };

    fn post(&mut self, alloc: Global, url: &Text, body: &Text) -> Result<Page, LinkFault> {
        self.calls = self.calls.saturating_add(1);
        let answer = self.link.post(alloc, url, body);
        self.arrivals.add(Arrival::of(&answer));
        answer
    }
}
