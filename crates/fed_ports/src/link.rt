// Where pages are asked for.

ghost use Rattle.std.specs.Prelude.{◌≡◌, ℕ, List, Option, Result as AnyResult};
ghost use Rattle.fed_base.specs.Counts.{next_count};
ghost use Rattle.fed_ports.specs.declared.link.LinkFault.{LinkFault as AnyFault};
ghost use Rattle.fed_ports.specs.declared.page.Page.{Page as AnyPage};
ghost use Rattle.fed_ports.specs.Webs.{Web, Serves, HasLinkCause};

use crate::page::Page;
use fed_base::Text;
use std::alloc::Global;
use thiserror::Error;

/// Why there is no page.
#[derive(Clone, Copy, Debug, PartialEq, Eq, Drop, Error)]
pub enum LinkFault {
    /// The link failed: its count of faults rose in the call, or stands at its last value, 2^64 - 1.
    #[error("the link failed")]
    Failed,
    /// Memory was wanting.
    #[error("out of memory")]
    Memory,
}

impl From<fed_base::Memory> for LinkFault {
    ghost use Rattle.fed_ports.specs.declared.link.LinkFault.TheVariants.{Memory};
    ghost use Rattle.std.specs.Prelude.{◌≡◌};

    ghost from_gives = { λ _ e. e ≡ Memory };

    fn from(_: fed_base::Memory) -> Self {
        LinkFault::Memory
    }
}

/// What gives the pages of URLs.
pub trait Link {
    /// How many calls there were.
    ghost calls: { Self → ℕ };

    /// How often a call has failed.
    ghost link_faults: { Self → ℕ };

    /// The page of each URL, where the link tells them.
    ghost web: { Self → Option Web };

    /// What the link says of one call: how it stood before and after it, the URL, and the answer.
    ghost gave: { Self → Self → List ℕ → AnyResult AnyPage AnyFault → Type 0 };

    /// The page of this URL, `NoRoute` where there is none. It changes no page, whatever it answers.
    fn get(&mut self, alloc: Global, url: &Text) -> Result<Page, LinkFault>
        ensures calls { calls self.new ≡ next_count (calls self.old) }
        ensures page { Serves (web self.old) url.now result }
        ensures web { web self.new ≡ web self.old }
        ensures gave { gave self.old self.new url.now result }
        ensures cause { HasLinkCause (link_faults self.old) (link_faults self.new) result };
}
