// The jobs by several workers.

ghost use Rattle.std.specs.Prelude.{◌≡◌, ◌+◌, ◌<◌, ◌≤◌, length};
ghost use Rattle.std.specs.Thread.{IsSync};
ghost use Rattle.sign_many.specs.Jobs.{AreDone, IsGroup, start_of};

use crate::gate::Gate;
use crate::work::Work;
use std::thread::{Threads, join_mut};

// How many of the jobs the first half of the workers does: as many as it is of the workers, and at least one of both sides.
fn first_half(count: u32, workers: u64) -> u32
    requires some { 2 ≤ count }
    requires few { count ≤ 23 }
    requires workers { (1 ≤ workers) × (workers ≤ 16) }
    ensures { (1 ≤ result) × (result < count) }
{
    let share = u64::from(count) * (workers / 2) / workers;
    (share as u32).clamp(1, count - 1)
}

/// Does so many jobs from the first on, each in its part of these bytes, by so many workers: the list is halved, in proportion to the
/// workers of each half, until one job or one worker is left, and the halves are done in threads of their own.
pub(crate) fn do_jobs<R: Threads + Sync, G: Gate + Sync>(
    rt: &R,
    gate: &G,
    work: &Work,
    first: u32,
    count: u32,
    workers: u64,
    parts: &mut [u8],
)
    requires { IsGroup work.now.params first count workers (length parts.old) }
    ensures { AreDone work.now first count parts.new }
{
    if count == 1 {
        gate.enter(u64::from(first));
        work.do_job(first, parts);
        return;
    }
    let near = first_half(count, workers);
    let middle = first + near;
    let far = count - near;
    let (front, back) = parts.split_at_mut(work.start_of(middle) - work.start_of(first));
    if workers == 1 {
        do_jobs(rt, gate, work, first, near, 1, front);
        do_jobs(rt, gate, work, middle, far, 1, back);
        return;
    }
    let half = workers / 2;
    let rest = workers - half;
    join_mut(
        rt,
        &mut ||
            requires { IsSync R.row × IsSync G.row × IsGroup work.now.params first near half (length front.now) }
            ensures { AreDone work.entry.now first near front.exit.now }
        { do_jobs(rt, gate, work, first, near, half, front) },
        &mut ||
            requires { IsSync R.row × IsSync G.row × IsGroup work.now.params middle far rest (length back.now) }
            ensures { AreDone work.entry.now middle far back.exit.now }
        { do_jobs(rt, gate, work, middle, far, rest, back) },
    );
}
