// One caller that waits.

ghost use Rattle.std.specs.Prelude.{◌≡◌};
ghost use Rattle.waiting_callers.specs.Waiters.{IsSeen, is_late, is_whole, late_by, newcomer, spoke_after};

use crate::caller::Caller;
use crate::look::Look;

/// For how many milliseconds a caller may say nothing.
pub const SILENCE: u64 = 10_000;

/// In how many milliseconds its request has to be there, from when it was seen to begin.
pub const REQUEST: u64 = 5_000;

/// A caller that waits. Moments are milliseconds of a clock that doesn't go back.
#[derive(Drop)]
pub struct Waiter<C> {
    /// Who it is.
    pub caller: C,
    /// When it came.
    pub came: u64,
    /// When its request was first seen to have begun.
    pub spoke: Option<u64>,
    /// What the last look found.
    pub said: Look,
}

// Whether a caller that came then, whose request was seen to begin then and of which the last look found this is let go at that moment.
fn is_late_by(now: u64, came: u64, spoke: Option<u64>, said: Look) -> bool
    ensures { result ≡ late_by now came spoke said }
{
    match said {
        Look::Gone => true,
        Look::Whole => false,
        Look::Silent | Look::Speaks => match spoke {
            Some(spoke) => now.saturating_sub(spoke) >= REQUEST,
            None => now.saturating_sub(came) >= SILENCE,
        },
    }
}

// When a request was first seen to have begun, by what a look found now.
fn first_spoke(now: u64, spoke: Option<u64>, said: Look) -> Option<u64>
    ensures { result ≡ spoke_after now spoke said }
{
    match said {
        Look::Speaks | Look::Whole => Some(spoke.unwrap_or(now)),
        Look::Silent | Look::Gone => spoke,
    }
}

impl<C> Waiter<C> {
    /// A caller that came at that moment, at which nobody has looked yet.
    pub fn new(caller: C, came: u64) -> Waiter<C>
        ensures { result ≡ newcomer caller came }
    {
        Waiter {
            caller,
            came,
            spoke: None,
            said: Look::Silent,
        }
    }

    /// Whether its request is there.
    pub fn is_whole(&self) -> bool
        ensures { result ≡ is_whole self.now }
    {
        matches!(self.said, Look::Whole)
    }

    /// Whether it is let go at that moment.
    pub fn is_late(&self, now: u64) -> bool
        ensures { result ≡ is_late now self.now }
    {
        is_late_by(now, self.came, self.spoke, self.said)
    }
}

impl<C: Caller> Waiter<C> {
    /// Looks at it, at that moment.
    pub fn look(&mut self, now: u64)
        ensures { IsSeen C.is_same C.says now self.old self.new }
    {
        self.said = self.caller.look();
        self.spoke = first_spoke(now, self.spoke, self.said);
    }
}
