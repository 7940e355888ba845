// A link of given pages, which tells them.

ghost use Rattle.std.specs.Prelude.{◌≡◌, ◌↔◌, Some, Ok, Err, IfOk};
ghost use Rattle.fed_base.specs.Counts.{next_count};
ghost use Rattle.fed_net.specs.MemoryLinks.{page_of, link_web, link_plan, link_faults, link_calls};
ghost use Rattle.fed_base.specs.Plans.{after_call, IsDue};
ghost use Rattle.fed_ports.specs.Webs.{HasLinkCause, Serves};

use crate::named_page::{NamedPage, first_page};
use fed_base::{Duplicate, Memory, Seq, Text};
use fed_ports::{CallPlan, Link, LinkFault, Page};
use std::alloc::Global;

/// A link that gives these pages. Where two have one URL, the earlier one counts.
#[derive(Drop)]
pub struct MemoryLink {
    pages: Seq<NamedPage>,
    plan: CallPlan,
    faults: u64,
}

impl MemoryLink {
    /// A link of these pages. The calls whose numbers are listed fail, the first having the number 0, and so does every call from the
    /// number `calls` on.
    pub fn new(
        alloc: Global,
        pages: Seq<NamedPage>,
        failing: &[u64],
        calls: u64,
    ) -> Result<MemoryLink, Memory>
        ensures web { IfOk result (λ link. link_web link ≡ page_of pages) }
        ensures plan { IfOk result (λ link. link_plan link ≡ record { failing = failing.now; room = calls; made = 0 }) }
        ensures faults { IfOk result (λ link. link_faults link ≡ 0) }
    {
        let plan = CallPlan::new(alloc, failing, calls)?;
        Ok(MemoryLink {
            pages,
            plan,
            faults: 0,
        })
    }
}

impl Link for MemoryLink {
    ghost use Rattle.fed_ports.specs.declared.link.LinkFault.TheVariants.{Failed};

    ghost calls = { λ link. link_calls link };

    ghost link_faults = { λ link. link.faults };

    ghost web = { λ link. Some (page_of link.pages) };

    ghost gave = { λ _ _ _ _. Unit {0} };

    fn get(&mut self, alloc: Global, url: &Text) -> Result<Page, LinkFault>
        ensures calls { link_calls self.new ≡ next_count (link_calls self.old) }
        ensures page { Serves (Some (link_web self.old)) url.now result }
        ensures web { link_web self.new ≡ link_web self.old }
        ensures cause { HasLinkCause (link_faults self.old) (link_faults self.new) result }
        // It fails exactly where the call is to fail.
        ensures planned { (result ≡ Err Failed) ↔ IsDue (link_plan self.old) }
        ensures counted { link_plan self.new ≡ after_call (link_plan self.old) }
    {
        if self.plan.next_fails() {
            self.faults = self.faults.saturating_add(1);
            return Err(LinkFault::Failed);
        }
        match first_page(self.pages.as_slice(), url.as_slice()) {
            Some(page) => Ok(page.copy(alloc)?),
            None => Ok(Page::NoRoute),
        }
    }
}
