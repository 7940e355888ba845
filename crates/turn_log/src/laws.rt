//! What the rule of the table keeps, and what may cross threads.
ghost use Rattle.turn_log.specs.Between.{KeepsBetween};
ghost use Rattle.turn_log.specs.Gains.{AddUp};

use crate::group::{GroupPass, KeptGroup};
use crate::kept::Kept;
use crate::pass::Pass;
use crate::sequential::{Opening, Sequential};

/// Between any two steps of any threads each line of `Between` holds: there is one legal list, as long as word 0, of which each pass has
/// seen a prefix, word 1 is 1 exactly where one seat holds the turn, and so on.
pub fn between_steps<T: Sequential>()
    ensures { KeepsBetween T.steps }
{}

/// Calls in a row: what a caller's passes on the nine objects gained by some events and then by others is what they gained by all of them.
pub fn calls_in_a_row<E, C, R, D, Q>()
    ensures { AddUp E C R D Q }
{}

fn sent<X: Send>(_x: &X) {}

fn shared<X: Sync>(_x: &X) {}

/// Threads share an object whose value may go from thread to thread.
pub fn kept_is_sync<T: Sequential + Send>(kept: &Kept<T>) {
    shared(kept);
}

/// A pass goes to another thread where the object's value may.
pub fn pass_is_send<T: Sequential + Send>(pass: &Pass<T>) {
    sent(pass);
}
