// A finder of given answers, which tells them.

ghost use Rattle.std.specs.Prelude.{◌≡◌, None, IfOk, OnErr};
ghost use Rattle.client_register.specs.MemoryFinders.{answer_at};

use crate::finder::Finder;
use crate::found::Found;
use entity_id::EntityId;
use fed_base::{Duplicate, Memory, Seq};
use std::alloc::Global;

/// A finder that gives these answers in order, whatever it is asked, and then a fault at each call.
#[derive(Drop)]
pub struct MemoryFinder {
    answers: Seq<Found>,
    given: u64,
    calls: u64,
    faults: u64,
    last: Option<Found>,
}

impl MemoryFinder {
    ghost use Rattle.client_register.specs.MemoryFinders.{finder_answers, finder_given, finder_seen};

    /// A finder of which no call was made.
    pub fn new(answers: Seq<Found>) -> MemoryFinder
        ensures answers { finder_answers result ≡ answers }
        ensures given { finder_given result ≡ 0 }
        ensures seen { finder_seen result ≡ record { calls = 0; faults = 0; last = None } }
    {
        MemoryFinder {
            answers,
            given: 0,
            calls: 0,
            faults: 0,
            last: None,
        }
    }

    /// How many calls there were.
    pub fn calls(&self) -> u64
        ensures { result ≡ (finder_seen self.now).calls }
    {
        self.calls
    }

    /// How many of them were answered by a fault.
    pub fn faults(&self) -> u64
        ensures { result ≡ (finder_seen self.now).faults }
    {
        self.faults
    }
}

// A copy of the answer of that number: a fault where there is none.
fn answer_at(alloc: Global, answers: &[Found], number: u64) -> Result<Found, Memory>
    ensures { IfOk result (λ found. found ≡ answer_at answers.now number) }
{
    match answers.get(number as usize) {
        Some(answer) => answer.copy(alloc),
        None => Ok(Found::Fault),
    }
}

impl Finder for MemoryFinder {
    ghost use Rattle.fed_base.specs.Counts.{next_count};
    ghost use Rattle.client_register.specs.Finders.{HasAnswered};
    ghost use Rattle.client_register.specs.MemoryFinders.{finder_answers, finder_given, finder_seen};

    ghost seen = { λ finder. finder_seen finder };

    ghost gave = { λ _ _ _ _ _. Unit {0} };

    fn find(&mut self, alloc: Global, _leaf: &EntityId, _anchor: &EntityId) -> Result<Found, Memory>
        ensures answered { HasAnswered (finder_seen self.old) (finder_seen self.new) result }
        ensures listed { IfOk result (λ found. found ≡ answer_at (finder_answers self.old) (finder_given self.old)) }
        ensures given { IfOk result (λ _. finder_given self.new ≡ next_count (finder_given self.old)) }
        // Where memory is wanting the answer is still to be given.
        ensures kept { OnErr result (finder_given self.new ≡ finder_given self.old) }
        ensures answers { finder_answers self.new ≡ finder_answers self.old }
    {
        self.calls = self.calls.saturating_add(1);
        let answer = answer_at(alloc, self.answers.as_slice(), self.given)?;
        self.last = Some(answer.copy(alloc)?);
        self.given = self.given.saturating_add(1);
        if matches!(answer, Found::Fault) {
            self.faults = self.faults.saturating_add(1);
        }
        Ok(answer)
    }
}
