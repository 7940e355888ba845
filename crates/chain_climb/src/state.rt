// A search in progress: what it wants next, and what it does with an answer.

ghost use Rattle.std.specs.Prelude.{◌≡◌, ◌+◌, ◌<◌, true, Some, None, IfOk, IsSome, OnOk, OnErr, length, not, ◌&&◌, if◌then◌else◌};
ghost use Rattle.chain_climb.specs.declared.want.End.TheVariants.{Budget};
ghost use Rattle.chain_climb.specs.declared.want.Want.TheVariants.{Done};
ghost use Rattle.chain_climb.specs.declared.place.Stage.TheVariants.{Leaf, Hint, Judge, Ended};
ghost use Rattle.chain_climb.specs.Climbs.{page_named, with_chain};
ghost use Rattle.chain_climb.specs.Sessions.{Fits, FitsPage, IsNext, IsVerdict, answer_to, calls_in, faults_in, page_of, report_in, was_asked};
ghost use Rattle.chain_climb.specs.Walks.{HasPath, HasTakenPage, HasTakenVerdict, IsBegun, IsGiven, IsStanding, WaitsForPage, path_at, search_of, wanted, wanted_at};

use crate::answer::{Answer, PageAnswer, Report, Verdict};
use crate::facing::{Facing, face};
use crate::pages::{asked, called, failed, find_answer, is_valid, policy_fails};
use crate::path::Path;
use crate::place::{Place, Stage};
use crate::walk::{go_on, go_on_behind, hints_of, shrink};
use crate::want::{Bounds, End, Want};
use entity_id::EntityId;
use fed_base::{Duplicate, Memory, Seq, Text};
use std::alloc::Global;

// A search: whose chain is searched, the answers so far, the paths that were made, and where it stands.
#[derive(Drop)]
pub struct State {
    pub leaf: EntityId,
    pub anchor: EntityId,
    pub bounds: Bounds,
    pub pages: Seq<PageAnswer>,
    pub verdicts: Seq<Verdict>,
    pub calls: u64,
    pub faults: u64,
    pub queue: Seq<Path>,
    pub place: Place,
}

impl State {
    // A search for a chain from the leaf to the anchor.
    pub fn start(
        alloc: Global,
        leaf: &EntityId,
        anchor: &EntityId,
        bounds: Bounds,
    ) -> Result<State, Memory>
        ensures { IfOk result (IsBegun leaf.now anchor.now bounds) }
    {
        let leaf = leaf.copy(alloc)?;
        let anchor = anchor.copy(alloc)?;
        Ok(State {
            leaf,
            anchor,
            bounds,
            pages: Seq::new(alloc),
            verdicts: Seq::new(alloc),
            calls: 0,
            faults: 0,
            queue: Seq::new(alloc),
            place: Place {
                stage: Stage::Leaf,
                at: 0,
                hint: 0,
                level_end: 0,
                left: 0,
            },
        })
    }

    // What the search wants next.
    pub fn next(&self, alloc: Global) -> Result<Want, Memory>
        requires { IsStanding self.now }
        ensures want { IfOk result (λ want. want ≡ wanted self.now) }
        ensures next { IfOk result (IsNext (search_of self.now)) }
    {
        match self.place.stage {
            Stage::Leaf => self.leaf_want(alloc),
            Stage::Hint => self.hint_want(alloc),
            Stage::Judge => Ok(Want::Judge(self.chain_at_hand(alloc)?)),
            Stage::Found => Ok(Want::Done(End::Found(self.chain_at_hand(alloc)?))),
            Stage::Ended => Ok(Want::Done(self.plain_end())),
        }
    }

    // Answers the want. After `Memory` the search is as before.
    pub fn give(&mut self, alloc: Global, answer: Answer) -> Result<(), Memory>
        requires standing { IsStanding self.old }
        requires fits { Fits (search_of self.old) (wanted self.old) answer }
        ensures ok { OnOk result (IsGiven self.old self.new answer) }
        ensures err { OnErr result (self.new ≡ self.old) }
    {
        match self.next(alloc) {
            Ok(want) => self.take(alloc, want, answer),
            Err(Memory) => {
                drop(answer);
                Err(Memory)
            }
        }
    }

    // Takes the answer to this want.
    fn take(&mut self, alloc: Global, want: Want, answer: Answer) -> Result<(), Memory>
        requires standing { IsStanding self.old }
        requires want { want ≡ wanted self.old }
        requires next { IsNext (search_of self.old) want }
        requires fits { Fits (search_of self.old) (wanted self.old) answer }
        ensures ok { OnOk result (IsGiven self.old self.new answer) }
        ensures err { OnErr result (self.new ≡ self.old) }
    {
        match want {
            Want::Config { entity, url } => {
                let answer = report(answer);
                self.take_configuration(alloc, entity, url, answer)
            }
            Want::Superior {
                superior,
                subject,
                url,
            } => {
                let answer = report(answer);
                self.take_page(
                    alloc,
                    PageAnswer {
                        issuer: superior,
                        subject,
                        url,
                        answer,
                    },
                )
            }
            Want::Judge(path) => self.take_verdict(alloc, Verdict { path, answer }),
            Want::Done(_) => unreachable!(),
        }
    }

    // How many URLs the link was called for.
    pub fn calls(&self) -> u64
        requires { IsStanding self.now }
        ensures { result ≡ calls_in self.now.pages }
    {
        self.calls
    }

    // How many of these calls failed.
    pub fn faults(&self) -> u64
        requires { IsStanding self.now }
        ensures { result ≡ faults_in self.now.pages }
    {
        self.faults
    }

    // How many paths were made.
    pub fn paths(&self) -> u64
        ensures { result ≡ length self.now.queue }
    {
        self.queue.len() as u64
    }

    // How many pages were answered.
    pub fn answers(&self) -> u64
        ensures { result ≡ length self.now.pages }
    {
        self.pages.len() as u64
    }

    // The want of the leaf's configuration.
    fn leaf_want(&self, alloc: Global) -> Result<Want, Memory>
        ensures { IfOk result (λ want. want ≡ wanted_at Leaf self.now) }
    {
        let url = self.leaf.well_known(alloc)?;
        match find_answer(
            self.pages.as_slice(),
            &self.leaf,
            &self.leaf,
            url.as_slice(),
        ) {
            None => {
                let entity = self.leaf.copy(alloc)?;
                Ok(Want::Config { entity, url })
            }
            Some(_) => Ok(self.bound_met()),
        }
    }

    // The want at the hint at hand.
    fn hint_want(&self, alloc: Global) -> Result<Want, Memory>
        requires standing { IsStanding self.now }
        requires stage { self.now.place.stage ≡ Hint }
        ensures { IfOk result (λ want. want ≡ wanted_at Hint self.now) }
    {
        let path = &self.queue.as_slice()[self.place.at];
        let hints = hints_of(alloc, self.pages.as_slice(), path)?;
        match face(alloc, self.pages.as_slice(), path, &hints[self.place.hint])? {
            Facing::Wants(want) => Ok(want),
            Facing::Passed => Ok(self.bound_met()),
            Facing::Spent => Ok(self.bound_met()),
            Facing::Adds(_) => Ok(self.bound_met()),
        }
    }

    // The end at a bound.
    fn bound_met(&self) -> Want
        ensures { result ≡ Done (Budget self.now.calls (length self.now.queue)) }
    {
        Want::Done(End::Budget {
            calls: self.calls,
            paths: self.queue.len() as u64,
        })
    }

    // The path at hand, with the URLs of its chain.
    fn chain_at_hand(&self, alloc: Global) -> Result<Path, Memory>
        requires standing { IsStanding self.now }
        requires at { HasPath self.now.queue self.now.place }
        ensures { IfOk result (λ path. path ≡ with_chain (path_at self.now.queue self.now.place)) }
    {
        self.queue.as_slice()[self.place.at].with_chain(alloc)
    }

    // The end where there is nothing left to do.
    fn plain_end(&self) -> End
        ensures { Done result ≡ wanted_at Ended self.now }
    {
        if self.queue.is_empty() {
            End::NoLeaf
        } else if policy_fails(self.verdicts.as_slice()) {
            End::PolicyOnly
        } else {
            End::NoChain
        }
    }

    // Takes the answer to the want of a configuration, and goes on.
    fn take_configuration(
        &mut self,
        alloc: Global,
        entity: EntityId,
        url: Text,
        answer: Report,
    ) -> Result<(), Memory>
        requires standing { IsStanding self.old }
        requires waits { WaitsForPage self.old.place.stage }
        requires new { answer_to self.old.pages (page_named entity entity url) ≡ None }
        requires fits { FitsPage (was_asked self.old.pages url) (calls_in self.old.pages) self.old.bounds.calls (Some answer) }
        ensures ok { OnOk result (HasTakenPage self.old self.new (record { issuer = entity; subject = entity; url = url; answer = answer })) }
        ensures err { OnErr result (self.new ≡ self.old) }
    {
        match entity.copy(alloc) {
            Ok(subject) => self.take_page(
                alloc,
                PageAnswer {
                    issuer: entity,
                    subject,
                    url,
                    answer,
                },
            ),
            Err(Memory) => {
                drop(answer);
                Err(Memory)
            }
        }
    }

    // Takes the answer to the want of a page, and goes on.
    fn take_page(&mut self, alloc: Global, page: PageAnswer) -> Result<(), Memory>
        requires standing { IsStanding self.old }
        requires waits { WaitsForPage self.old.place.stage }
        requires new { answer_to self.old.pages (page_of page) ≡ None }
        requires fits { FitsPage (was_asked self.old.pages page.url) (calls_in self.old.pages) self.old.bounds.calls (Some page.answer) }
        ensures ok { OnOk result (HasTakenPage self.old self.new page) }
        ensures err { OnErr result (self.new ≡ self.old) }
    {
        let known = asked(self.pages.as_slice(), page.url.as_slice());
        let call = is_new(known, called(&page.answer));
        let fault = is_new(known, failed(&page.answer));
        let answered = self.pages.len();
        let count = self.queue.len();
        self.pages.push(page)?;
        match go_on(
            alloc,
            self.pages.as_slice(),
            &self.leaf,
            &self.anchor,
            self.bounds,
            self.place,
            &mut self.queue,
        ) {
            Ok(place) => {
                self.place = place;
                self.calls = counted(self.calls, call, self.bounds.calls);
                self.faults = counted(self.faults, fault, self.bounds.calls);
                Ok(())
            }
            Err(Memory) => {
                shrink(&mut self.queue, count);
                shrink(&mut self.pages, answered);
                Err(Memory)
            }
        }
    }

    // Takes the verdict on the path at hand, and goes on behind it where it isn't valid.
    fn take_verdict(&mut self, alloc: Global, verdict: Verdict) -> Result<(), Memory>
        requires standing { IsStanding self.old }
        requires stage { self.old.place.stage ≡ Judge }
        requires path { verdict.path ≡ with_chain (path_at self.old.queue self.old.place) }
        requires fits { IsVerdict verdict.answer }
        ensures ok { OnOk result (HasTakenVerdict self.old self.new verdict) }
        ensures err { OnErr result (self.new ≡ self.old) }
    {
        let valid = is_valid(&verdict.answer);
        let judged = self.verdicts.len();
        let count = self.queue.len();
        self.verdicts.push(verdict)?;
        if valid {
            self.place.stage = Stage::Found;
            return Ok(());
        }
        match go_on_behind(
            alloc,
            self.pages.as_slice(),
            &self.anchor,
            self.bounds,
            self.place,
            &mut self.queue,
        ) {
            Ok(place) => {
                self.place = place;
                Ok(())
            }
            Err(Memory) => {
                shrink(&mut self.queue, count);
                shrink(&mut self.verdicts, judged);
                Err(Memory)
            }
        }
    }
}

// What an answer says of a page.
fn report(answer: Answer) -> Report
    requires { IsSome (report_in answer) }
    ensures { report_in answer ≡ Some result }
{
    match answer {
        Answer::Good(statement, origin) => Report::Good(statement, origin),
        Answer::Useless(origin) => Report::Useless(origin),
        Answer::Fault => Report::Fault,
        Answer::Spent => Report::Spent,
        Answer::Valid => unreachable!(),
        Answer::PolicyFails => unreachable!(),
        Answer::Invalid => unreachable!(),
    }
}

// The count with one more, where there is one. It stays within the most.
fn counted(count: u64, more: bool, most: u64) -> u64
    requires { more ≡ true → count < most }
    ensures { result ≡ (if more then count + 1 else count) }
{
    if more { count + 1 } else { count }
}

// Whether the URL wasn't asked before, and this holds of the answer.
fn is_new(known: bool, holds: bool) -> bool
    ensures { result ≡ (not known && holds) }
{
    !known && holds
}
