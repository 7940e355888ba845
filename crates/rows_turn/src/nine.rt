// A group of nine objects, called by one pass and read by another that joins it.
ghost use Rattle.turn_log.specs.Groups.{AreOf};
ghost use Rattle.rows_turn.specs.Counts.{CountStep, none_counted};

use crate::counter::Counter;
use crate::worker::Stop;
use std::alloc::Global;
use std::sync::Wait;
use turn_log::{GroupPass, KeptGroup};

type Nine = KeptGroup<Counter, Counter>;

type NinePass = GroupPass<Counter, Counter>;

// Adds to each part, and as often to the book. It gives the last sums that were told.
fn call_each<R: Wait>(
    rt: &R,
    alloc: Global,
    nine: &Nine,
    pass: &mut NinePass,
    amount: u64,
) -> Result<(u64, u64), Stop>
    requires { AreOf CountStep none_counted CountStep nine.now pass.old }
    ensures { AreOf CountStep none_counted CountStep nine.now pass.new }
{
    let mut parts = 0u64;
    let mut book = 0u64;
    for at in 0..8usize {
        let sum = nine.part(rt, alloc, pass, at, amount)?;
        parts = parts.wrapping_add(sum);
        book = nine.book(rt, alloc, pass, amount)?;
    }
    Ok((parts, book))
}

// The same after another pass called each.
fn call_by_both<R: Wait>(
    rt: &R,
    alloc: Global,
    nine: &Nine,
    pass: &mut NinePass,
    amount: u64,
) -> Result<(u64, u64), Stop>
    requires { AreOf CountStep none_counted CountStep nine.now pass.old }
{
    let mut other = nine.split(rt, alloc, pass)?;
    let called = call_each(rt, alloc, nine, &mut other, amount);
    nine.join(rt, pass, other);
    called?;
    nine.is_history(pass);
    call_each(rt, alloc, nine, pass, 0)
}

/// The sums of the parts together, and that of the book, after each was called by one pass and read by the first.
pub fn sums<R: Wait>(rt: &R, alloc: Global, amount: u64) -> Result<(u64, u64), Stop> {
    let (nine, mut pass) = KeptGroup::new(alloc, Counter { sum: 0 })?;
    let sums = call_by_both(rt, alloc, &nine, &mut pass, amount);
    drop(pass);
    drop(nine);
    sums
}
