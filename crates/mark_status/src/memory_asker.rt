// An asker of given pages, which tells its posts.

ghost use Rattle.std.specs.Prelude.{◌≡◌, [], ◌∷◌, ◌++◌, Some, IfOk, OnErr, OnOk};
ghost use Rattle.fed_base.specs.Plans.{after_call};
ghost use Rattle.mark_status.specs.MemoryAskers.{IsAnswered, IsPlanned, asker_asked, asker_pages, asker_plan, asker_posts};
ghost use Rattle.mark_status.specs.Posts.{Asks, asked_of, post_of};

use crate::asker::Asker;
use crate::post::Post;
use fed_base::{Duplicate, Memory, Seq, Text};
use fed_ports::{CallPlan, LinkFault, Page};
use std::alloc::Global;

/// An asker whose posts are answered by these pages, wherever they are made: the post of a number by the page of that number.
#[derive(Drop)]
pub struct MemoryAsker {
    pages: Seq<Page>,
    posts: Seq<Post>,
    plan: CallPlan,
    faults: u64,
}

impl MemoryAsker {
    /// An asker of which no call was made. The calls whose numbers are listed fail, the first having the number 0, and so does every
    /// call from the number `calls` on. A post without a page is answered `NoRoute`.
    pub fn new(
        alloc: Global,
        pages: Seq<Page>,
        failing: &[u64],
        calls: u64,
    ) -> Result<MemoryAsker, Memory>
        ensures pages { IfOk result (λ asker. asker_pages asker ≡ pages) }
        ensures plan { IfOk result (λ asker. asker_plan asker ≡ record { failing = failing.now; room = calls; made = 0 }) }
        ensures asked { IfOk result (λ asker. asker_asked asker ≡ asked_of 0 0 (Some [])) }
    {
        let plan = CallPlan::new(alloc, failing, calls)?;
        Ok(MemoryAsker {
            pages,
            posts: Seq::new(alloc),
            plan,
            faults: 0,
        })
    }

    /// The posts that were made, in order.
    pub fn posts(&self) -> &[Post]
        ensures { result.now ≡ asker_posts self.now }
    {
        self.posts.as_slice()
    }

    // The page of the next post, where it isn't to fail.
    fn answer(&mut self, alloc: Global) -> Result<Option<Page>, Memory>
        ensures page { IfOk result (IsAnswered self.old) }
        ensures plan { asker_plan self.new ≡ after_call (asker_plan self.old) }
        ensures others { self.new ≡ record self.old { plan = self.new.plan } }
    {
        if self.plan.next_fails() {
            return Ok(None);
        }
        match self.pages.as_slice().get(self.posts.len()) {
            Some(page) => Ok(Some(page.copy(alloc)?)),
            None => Ok(Some(Page::NoRoute)),
        }
    }

    // Keeps the post that was made.
    fn note(
        &mut self,
        alloc: Global,
        url: &Text,
        body: &Text,
        page: &Option<Page>,
    ) -> Result<(), Memory>
        ensures ok { OnOk result (self.new ≡ record self.old { posts = asker_posts self.old ++ post_of url.now body.now page.now ∷ [] }) }
        ensures err { OnErr result (self.new ≡ self.old) }
    {
        let url = url.copy(alloc)?;
        let body = body.copy(alloc)?;
        let page = page.copy(alloc)?;
        self.posts.push(Post { url, body, page })
    }
}

impl Asker for MemoryAsker {
    ghost use Rattle.std.specs.Prelude.{◌≡◌};
    ghost use Rattle.mark_status.specs.MemoryAskers.{asker_asked};

    ghost asked = { λ asker. asker_asked asker };

    ghost gave = { λ _ _ _ _ _. Unit {0} };

    fn post(&mut self, alloc: Global, url: &Text, body: &Text) -> Result<Page, LinkFault>
        ensures asks { Asks (asker_asked self.old) url.now body.now result (asker_asked self.new) }
        // It fails only where the call is to fail, and is answered by its page only where it isn't.
        ensures planned { IsPlanned self.old result }
        ensures pages { asker_pages self.new ≡ asker_pages self.old }
        ensures counted { asker_plan self.new ≡ after_call (asker_plan self.old) }
    {
        let page = self.answer(alloc)?;
        self.note(alloc, url, body, &page)?;
        match page {
            Some(page) => Ok(page),
            None => {
                self.faults = self.faults.saturating_add(1);
                Err(LinkFault::Failed)
            },
        }
    }
}
