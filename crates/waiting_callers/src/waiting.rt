// Those that wait.

ghost use Rattle.std.specs.Prelude.{◌≡◌, ◌<◌, ◌++◌, ◌∷◌, [], length, nat_eq, nat_lt, OnOk, OnErr};
ghost use Rattle.std.specs.List.{position};
ghost use Rattle.waiting_callers.specs.Waiters.{AreSeen, TakesFirst, is_late, is_whole, most_callers, newcomer};

use crate::caller::Caller;
use crate::waiter::Waiter;
use fed_base::Memory;
use std::alloc::Global;
use std::marker::Model;

/// How many callers wait at most.
pub const MOST_CALLERS: usize = 256;

/// Callers that wait, in the order in which they came.
#[derive(Drop)]
pub struct Waiting<C> {
    waiters: Vec<Waiter<C>>,
}

// Contracts see them as a list.
impl<C> Model for Waiting<C> {
    ghost use Rattle.std.specs.Prelude.{◌≤◌, List, length};
    ghost use Rattle.waiting_callers.specs.Waiters.{most_callers};
    ghost use Rattle.waiting_callers.specs.declared.waiter.Waiter.{Waiter};

    ghost Value = { List (Waiter C) };

    ghost view = { λ waiting. waiting.waiters.items };

    ghost invariant = { λ waiting. length waiting.waiters.items ≤ most_callers };
}

// Looks at each of them, in order.
fn look_each<C: Caller>(waiters: &mut [Waiter<C>], now: u64)
    ensures { AreSeen C.is_same C.says now waiters.old waiters.new }
{
    let Some((first, rest)) = waiters.split_first_mut() else {
        return;
    };
    first.look(now);
    look_each(rest, now);
}

impl<C> Waiting<C> {
    /// Nobody has come.
    pub fn new(alloc: Global) -> Waiting<C>
        ensures { result ≡ [] }
    {
        Waiting {
            waiters: Vec::new(alloc),
        }
    }

    /// Whether nobody waits.
    pub fn is_empty(&self) -> bool
        ensures { result ≡ nat_eq (length self.now) 0 }
    {
        self.waiters.is_empty()
    }

    /// Whether another may wait.
    pub fn has_room(&self) -> bool
        ensures { result ≡ nat_lt (length self.now) most_callers }
    {
        self.waiters.len() < MOST_CALLERS
    }

    /// A caller has come at that moment, in milliseconds: it waits behind all others. After `Memory` they are as before.
    pub fn come(&mut self, caller: C, now: u64) -> Result<(), Memory>
    where
        C: Drop,
        requires room { length self.old < most_callers }
        ensures ok { OnOk result (self.new ≡ self.old ++ newcomer caller now ∷ []) }
        ensures err { OnErr result (self.new ≡ self.old) }
    {
        self.waiters.push(Waiter::new(caller, now))?;
        Ok(())
    }

    // The place of the first whose request is there.
    fn whole_place(&self) -> Option<usize>
        ensures { result ≡ position is_whole self.now }
    {
        self.waiters.iter().position(|waiter| waiter.is_whole())
    }

    // The place of the first that is to be let go.
    fn late_place(&self, now: u64) -> Option<usize>
        ensures { result ≡ position (is_late now) self.now }
    {
        self.waiters.iter().position(|waiter| waiter.is_late(now))
    }

    /// Hands on the first whose request is there. The others stay, in their order.
    pub fn hand_on(&mut self) -> Option<Waiter<C>>
        ensures { TakesFirst is_whole self.old result self.new }
    {
        let Some(at) = self.whole_place() else {
            return None;
        };
        Some(self.waiters.remove(at))
    }

    /// Lets go of the first that is gone or late at that moment, in milliseconds. The others stay, in their order.
    pub fn let_go(&mut self, now: u64) -> Option<Waiter<C>>
        ensures { TakesFirst (is_late now) self.old result self.new }
    {
        let Some(at) = self.late_place(now) else {
            return None;
        };
        Some(self.waiters.remove(at))
    }
}

impl<C: Caller> Waiting<C> {
    /// Looks at each of them, at that moment, in milliseconds.
    pub fn look(&mut self, now: u64)
        ensures { AreSeen C.is_same C.says now self.old self.new }
    {
        look_each(self.waiters.as_mut_slice(), now);
    }
}
