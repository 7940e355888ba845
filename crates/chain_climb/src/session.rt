// The search for a trust chain, as its caller sees it.

ghost use Rattle.std.specs.Prelude.{◌≡◌, length, IfOk, OnOk, OnErr};
ghost use Rattle.chain_climb.specs.Climbs.{Findings};
ghost use Rattle.chain_climb.specs.Ends.{FindsFirst, LeavesNone};
ghost use Rattle.chain_climb.specs.Sessions.{Extends, Fits, IsNext, IsNextBy, begun, calls_in, faults_in};
ghost use Rattle.chain_climb.specs.Wants.{HasMade, IsBounded, WantsNew, given, next_want};

use crate::answer::Answer;
use crate::state::State;
use crate::want::{Bounds, Want};
use entity_id::EntityId;
use fed_base::Memory;
use std::alloc::Global;
use std::marker::Model;

/// A search for a trust chain from a leaf to a trust anchor (OpenID Federation 1.0 section 10.1).
///
/// Contracts see it as the leaf, the anchor, the bounds, the answers to pages and the verdicts on paths, in the order of the answers.
/// Paths are looked at in the order of their lengths, and of two of one length that with the earlier hints comes first, from the leaf up.
#[derive(Drop)]
pub struct Session {
    state: State,
}

impl Model for Session {
    ghost use Rattle.chain_climb.specs.Sessions.{Search};
    ghost use Rattle.chain_climb.specs.Walks.{IsStanding, search_of};
    ghost use Rattle.std.specs.Coded.{codes};
    ghost use Rattle.chain_climb.specs.contracts.answer.PageAnswer as page_answer;
    ghost use Rattle.chain_climb.specs.contracts.answer.Verdict as verdict;

    ghost Value = { Search };

    ghost coded = { Prim.hlevel (codes, page_answer.the_row.coded, verdict.the_row.coded) };

    ghost view = { λ session. search_of session.state };

    ghost invariant = { λ session. IsStanding session.state };
}

impl Session {
    /// A search that has no answer yet.
    pub fn start(
        alloc: Global,
        leaf: &EntityId,
        anchor: &EntityId,
        bounds: Bounds,
    ) -> Result<Session, Memory>
        ensures { IfOk result (λ session. session ≡ begun leaf.now anchor.now bounds) }
    {
        let state = State::start(alloc, leaf, anchor, bounds)?;
        Ok(Session { state })
    }

    /// What the search wants next. It changes nothing, and asks for the same until it is answered.
    pub fn next(&self, alloc: Global) -> Result<Want, Memory>
        // What the search wants is a function of its answers.
        ensures want { IfOk result (λ want. want ≡ next_want self.now) }
        // It is what the first step of the whole search wants that isn't done.
        ensures next { IfOk result (IsNext self.now) }
        // Later answers don't change that.
        ensures stays { IfOk result (λ want. (found : Findings) → Extends found self.now.pages → IsNextBy found self.now want) }
        // No page is wanted twice.
        ensures new { IfOk result (WantsNew self.now) }
        // What is found is the first valid path.
        ensures found { IfOk result (FindsFirst self.now) }
        // An end without a valid path and without a bound leaves no path to the anchor.
        ensures complete { IfOk result (LeavesNone self.now) }
        // The bounds hold at every moment.
        ensures bounded { IfOk result (λ want. IsBounded self.now) }
    {
        self.state.next(alloc)
    }

    /// Answers what the search wants. After `Memory` it is as before, and wants the same.
    pub fn give(&mut self, alloc: Global, answer: Answer) -> Result<(), Memory>
        requires { Fits self.old (next_want self.old) answer }
        ensures ok { OnOk result (self.new ≡ given self.old answer) }
        ensures err { OnErr result (self.new ≡ self.old) }
    {
        self.state.give(alloc, answer)
    }

    /// How many URLs the link was asked for, each once, under whatever names. It takes no memory.
    pub fn calls(&self) -> u64
        ensures { result ≡ calls_in self.now.pages }
    {
        self.state.calls()
    }

    /// How many of these calls failed. It takes no memory.
    pub fn faults(&self) -> u64
        ensures { result ≡ faults_in self.now.pages }
    {
        self.state.faults()
    }

    /// How many paths were made, the leaf's own among them. It takes no memory.
    pub fn paths(&self) -> u64
        ensures { HasMade self.now (next_want self.now) result }
    {
        self.state.paths()
    }

    /// How many pages were answered. It takes no memory.
    pub fn answers(&self) -> u64
        ensures { result ≡ length self.now.pages }
    {
        self.state.answers()
    }
}
