// Two, four and eight callers at once.
ghost use Rattle.turn_log.specs.Objects.{IsOf};
ghost use Rattle.rows_turn.specs.Tallies.{TallyStep};
ghost use Rattle.rows_turn.specs.Teams.{Both, IsReady};

use crate::tally::Tally;
use crate::worker::{Job, Stop, Told, Worker, close_one, open_one, work};
use std::alloc::Global;
use std::sync::Wait;
use std::thread::{Threads, join_mut};
use turn_log::{Kept, Pass};

/// Two callers, or two pairs of them.
#[derive(Drop)]
pub struct Pair<W> {
    pub first: W,
    pub second: W,
}

/// So many callers whose passes are split from this one.
pub fn open_two<R>(
    rt: &R,
    alloc: Global,
    kept: &Kept<Tally>,
    pass: &mut Pass<Tally>,
) -> Pair<Worker>
    requires { IsOf TallyStep kept.now pass.old }
    ensures pass { IsOf TallyStep kept.now pass.new }
    ensures ready { Both (IsReady kept.now) result }
{
    let first = open_one(rt, alloc, kept, pass);
    let second = open_one(rt, alloc, kept, pass);
    Pair { first, second }
}

/// Their calls, in threads of their own. The first caller has this number.
pub fn run_two<R: Threads + Wait + Sync>(
    rt: &R,
    alloc: Global,
    kept: &Kept<Tally>,
    job: Job,
    number: u64,
    team: &mut Pair<Worker>,
)
    requires { Both (IsReady kept.now) team.old }
    ensures { Both (IsReady kept.now) team.new }
{
    let Pair { first, second } = team;
    let next = number.wrapping_add(1);
    join_mut(
        rt,
        &mut ||
            requires { IsReady kept.now first.now }
            ensures { IsReady kept.entry.now first.exit.now }
        {
            work(rt, alloc, kept, job, number, first);
        },
        &mut ||
            requires { IsReady kept.now second.now }
            ensures { IsReady kept.entry.now second.exit.now }
        {
            work(rt, alloc, kept, job, next, second);
        },
    );
}

/// Joins their passes to this one, and adds what they were told.
pub fn close_two<R>(
    rt: &R,
    kept: &Kept<Tally>,
    pass: &mut Pass<Tally>,
    told: &mut Told,
    team: Pair<Worker>,
) -> Result<(), Stop>
    requires pass { IsOf TallyStep kept.now pass.old }
    requires ready { Both (IsReady kept.now) team }
    ensures { IsOf TallyStep kept.now pass.new }
{
    let Pair { first, second } = team;
    let first = close_one(rt, kept, pass, told, first);
    let second = close_one(rt, kept, pass, told, second);
    first?;
    second
}

/// So many callers whose passes are split from this one.
pub fn open_four<R>(
    rt: &R,
    alloc: Global,
    kept: &Kept<Tally>,
    pass: &mut Pass<Tally>,
) -> Pair<Pair<Worker>>
    requires { IsOf TallyStep kept.now pass.old }
    ensures pass { IsOf TallyStep kept.now pass.new }
    ensures ready { Both (Both (IsReady kept.now)) result }
{
    let first = open_two(rt, alloc, kept, pass);
    let second = open_two(rt, alloc, kept, pass);
    Pair { first, second }
}

/// Their calls, in threads of their own. The first caller has this number.
pub fn run_four<R: Threads + Wait + Sync>(
    rt: &R,
    alloc: Global,
    kept: &Kept<Tally>,
    job: Job,
    number: u64,
    team: &mut Pair<Pair<Worker>>,
)
    requires { Both (Both (IsReady kept.now)) team.old }
    ensures { Both (Both (IsReady kept.now)) team.new }
{
    let Pair { first, second } = team;
    let next = number.wrapping_add(2);
    join_mut(
        rt,
        &mut ||
            requires { Both (IsReady kept.now) first.now }
            ensures { Both (IsReady kept.entry.now) first.exit.now }
        {
            run_two(rt, alloc, kept, job, number, first);
        },
        &mut ||
            requires { Both (IsReady kept.now) second.now }
            ensures { Both (IsReady kept.entry.now) second.exit.now }
        {
            run_two(rt, alloc, kept, job, next, second);
        },
    );
}

/// Joins their passes to this one, and adds what they were told.
pub fn close_four<R>(
    rt: &R,
    kept: &Kept<Tally>,
    pass: &mut Pass<Tally>,
    told: &mut Told,
    team: Pair<Pair<Worker>>,
) -> Result<(), Stop>
    requires pass { IsOf TallyStep kept.now pass.old }
    requires ready { Both (Both (IsReady kept.now)) team }
    ensures { IsOf TallyStep kept.now pass.new }
{
    let Pair { first, second } = team;
    let first = close_two(rt, kept, pass, told, first);
    let second = close_two(rt, kept, pass, told, second);
    first?;
    second
}

/// So many callers whose passes are split from this one.
pub fn open_eight<R>(
    rt: &R,
    alloc: Global,
    kept: &Kept<Tally>,
    pass: &mut Pass<Tally>,
) -> Pair<Pair<Pair<Worker>>>
    requires { IsOf TallyStep kept.now pass.old }
    ensures pass { IsOf TallyStep kept.now pass.new }
    ensures ready { Both (Both (Both (IsReady kept.now))) result }
{
    let first = open_four(rt, alloc, kept, pass);
    let second = open_four(rt, alloc, kept, pass);
    Pair { first, second }
}

/// Their calls, in threads of their own. The first caller has this number.
pub fn run_eight<R: Threads + Wait + Sync>(
    rt: &R,
    alloc: Global,
    kept: &Kept<Tally>,
    job: Job,
    number: u64,
    team: &mut Pair<Pair<Pair<Worker>>>,
)
    requires { Both (Both (Both (IsReady kept.now))) team.old }
    ensures { Both (Both (Both (IsReady kept.now))) team.new }
{
    let Pair { first, second } = team;
    let next = number.wrapping_add(4);
    join_mut(
        rt,
        &mut ||
            requires { Both (Both (IsReady kept.now)) first.now }
            ensures { Both (Both (IsReady kept.entry.now)) first.exit.now }
        {
            run_four(rt, alloc, kept, job, number, first);
        },
        &mut ||
            requires { Both (Both (IsReady kept.now)) second.now }
            ensures { Both (Both (IsReady kept.entry.now)) second.exit.now }
        {
            run_four(rt, alloc, kept, job, next, second);
        },
    );
}

/// Joins their passes to this one, and adds what they were told.
pub fn close_eight<R>(
    rt: &R,
    kept: &Kept<Tally>,
    pass: &mut Pass<Tally>,
    told: &mut Told,
    team: Pair<Pair<Pair<Worker>>>,
) -> Result<(), Stop>
    requires pass { IsOf TallyStep kept.now pass.old }
    requires ready { Both (Both (Both (IsReady kept.now))) team }
    ensures { IsOf TallyStep kept.now pass.new }
{
    let Pair { first, second } = team;
    let first = close_four(rt, kept, pass, told, first);
    let second = close_four(rt, kept, pass, told, second);
    first?;
    second
}
