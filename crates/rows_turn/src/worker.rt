// One caller of the object.
ghost use Rattle.turn_log.specs.Objects.{IsOf};
ghost use Rattle.rows_turn.specs.Tallies.{TallyStep};
ghost use Rattle.rows_turn.specs.Teams.{IsReady};

use crate::tally::{Call, Reply, Tally};
use fed_base::Memory;
use std::alloc::{AllocError, AllocFailed, Global};
use std::sync::Wait;
use turn_log::{Kept, Pass, Worn};

/// Why a row has no result.
#[derive(Clone, Copy, Debug, PartialEq, Eq, Drop)]
pub enum Stop {
    Memory,
    Worn,
    Order,
}

impl From<Memory> for Stop {
    fn from(_: Memory) -> Stop {
        Stop::Memory
    }
}

impl From<AllocError> for Stop {
    fn from(_: AllocError) -> Stop {
        Stop::Memory
    }
}

impl<T: Drop> From<AllocFailed<T>> for Stop {
    fn from(_: AllocFailed<T>) -> Stop {
        Stop::Memory
    }
}

impl From<Worn> for Stop {
    fn from(_: Worn) -> Stop {
        Stop::Worn
    }
}

/// What the threads of a row were told.
#[derive(Drop)]
pub struct Told {
    /// Of each call that added: the sum before it, and the amount.
    pub sums: Vec<(u64, u64)>,
    /// How many values were kept.
    pub kept: u64,
    /// How many calls wanted memory.
    pub wanting: u64,
}

impl Told {
    pub fn new(alloc: Global) -> Told {
        Told {
            sums: Vec::new(alloc),
            kept: 0,
            wanting: 0,
        }
    }

    // Enters a reply. The sums that one caller is told rise.
    fn enter(&mut self, call: Call, reply: Reply) -> Result<(), Stop> {
        match (call, reply) {
            (Call::Add(amount), Reply::Before(sum)) => {
                let rises = match self.sums.last() {
                    Some(last) => last.0 < sum,
                    None => true,
                };
                if !rises {
                    return Err(Stop::Order);
                }
                self.sums.push((sum, amount))?;
            }
            (_, Reply::Done) => self.kept = self.kept.saturating_add(1),
            (_, Reply::Memory) => self.wanting = self.wanting.saturating_add(1),
            _ => (),
        }
        Ok(())
    }

    // Adds what another thread was told.
    fn add(&mut self, other: &Told) -> Result<(), Stop> {
        self.kept = self.kept.saturating_add(other.kept);
        self.wanting = self.wanting.saturating_add(other.wanting);
        for sum in other.sums.as_slice() {
            self.sums.push(*sum)?;
        }
        Ok(())
    }
}

/// What the threads of a row do.
#[derive(Clone, Copy, Drop)]
pub struct Job {
    /// Whether they keep values, and else they add.
    pub keeps: bool,
    /// Whether one of them asks for more memory than there is.
    pub wants: bool,
    /// How many calls each makes.
    pub calls: u64,
}

impl Job {
    // The call of this thread.
    fn call(&self, thread: u64) -> Call {
        if !self.keeps {
            return Call::Add(thread);
        }
        let room = if self.wants && thread == 1 {
            usize::MAX
        } else {
            1
        };
        Call::Keep(thread, room)
    }
}

/// A caller in a thread of its own, with its pass and what it was told.
#[derive(Drop)]
pub struct WorkerOf<P> {
    pub pass: P,
    pub told: Told,
    pub result: Result<(), Stop>,
}

/// A caller of the object of a row.
pub type Worker = WorkerOf<Pass<Tally>>;

/// A caller whose pass is split from this one.
pub fn open_one<R>(rt: &R, alloc: Global, kept: &Kept<Tally>, pass: &mut Pass<Tally>) -> Worker
    requires { IsOf TallyStep kept.now pass.old }
    ensures pass { IsOf TallyStep kept.now pass.new }
    ensures ready { IsReady kept.now result }
{
    let own = kept.split(rt, pass);
    WorkerOf {
        pass: own,
        told: Told::new(alloc),
        result: Ok(()),
    }
}

// The calls of one caller.
fn make<R: Wait>(
    rt: &R,
    alloc: Global,
    kept: &Kept<Tally>,
    call: Call,
    calls: u64,
    pass: &mut Pass<Tally>,
    told: &mut Told,
) -> Result<(), Stop>
    requires { IsOf TallyStep kept.now pass.old }
    ensures { IsOf TallyStep kept.now pass.new }
{
    for _ in 0..calls {
        let reply = kept.act(rt, alloc, pass, call)?;
        told.enter(call, reply)?;
    }
    Ok(())
}

/// The calls of the caller of this number.
pub fn work<R: Wait>(
    rt: &R,
    alloc: Global,
    kept: &Kept<Tally>,
    job: Job,
    number: u64,
    worker: &mut Worker,
)
    requires { IsReady kept.now worker.old }
    ensures { IsReady kept.now worker.new }
{
    let call = job.call(number);
    worker.result = make(
        rt,
        alloc,
        kept,
        call,
        job.calls,
        &mut worker.pass,
        &mut worker.told,
    );
}

/// Joins the pass of a caller to this one, and adds what it was told.
pub fn close_one<R>(
    rt: &R,
    kept: &Kept<Tally>,
    pass: &mut Pass<Tally>,
    told: &mut Told,
    worker: Worker,
) -> Result<(), Stop>
    requires pass { IsOf TallyStep kept.now pass.old }
    requires ready { IsReady kept.now worker }
    ensures { IsOf TallyStep kept.now pass.new }
{
    let WorkerOf {
        pass: own,
        told: own_told,
        result,
    } = worker;
    kept.join(rt, pass, own);
    told.add(&own_told)?;
    result
}
