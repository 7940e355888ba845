// An object that threads share, and the calls that they make on it.
ghost use Rattle.std.specs.Prelude.{◌≡◌, [], ◌∷◌, IfOk, Some, None};

use crate::pass::{Pass, PassSeat};
use crate::rule::{Commit, Count, JoinPass, Learn, Release, Rule, SplitPass, Take};
use crate::sequential::Sequential;
use crate::view::{Stored, View};
use crate::worn::{CALL_LIMIT, Worn};
use atomic_table::{Seat, Table, TableRule};
use fed_base::Memory;
use std::alloc::Global;
use std::snapshot::Snapshot;
use std::sync::Wait;
use std::thread;

/// An object of one thread that many threads call in turns.
pub type Kept<T> = KeptTable<
    Stored<T, <T as Sequential>::Call, <T as Sequential>::Reply>,
    View<T, <T as Sequential>::Call, <T as Sequential>::Reply>,
    Snapshot<T>,
    Rule<T>,
>;

/// The table of an object: two words and one slot.
///
/// It is generic in what the table is made of, since a struct whose field passes `T` to the rule isn't shown to be `Sync`.
#[derive(Drop)]
pub struct KeptTable<S, V, K, Q: TableRule<S, V, K>> {
    table: Table<S, V, K, Q, Global>,
    ghost sized: { (table.shared.table_id.words ≡ 2) × (table.shared.table_id.slots ≡ 1) },
}

// The one slot of a table, with the value that lies there first.
fn stored<X: Drop, C, R>(alloc: Global, first: X) -> Result<Vec<Stored<X, C, R>>, Memory>
    ensures { IfOk result (λ slots. slots.items ≡ record { value = Some first; call = None; reply = None } ∷ []) }
{
    let mut slots = Vec::new(alloc);
    slots.reserve(1)?;
    slots.push_reserved(Stored {
        value: Some(first),
        call: None,
        reply: None,
    });
    Ok(slots)
}

impl<T: Sequential> Kept<T> {
    ghost use Rattle.std.specs.Prelude.{IfOk, IfErr, true, false};
    ghost use Rattle.turn_log.specs.StepKinds.{IsTaken};
    ghost use Rattle.turn_log.specs.Passes.{account, is_alone, lent, untaken, unused, OwnsAll, Extends, IsWorn, IsJoined};
    ghost use Rattle.turn_log.specs.Objects.{first_state, IsOf};

    /// The object, and a pass that has seen nothing and is alone.
    pub fn new(alloc: Global, first: T) -> Result<(Kept<T>, Pass<T>), Memory>
        ensures first { IfOk result (λ r. first_state r.0 ≡ first) }
        ensures pass { IfOk result (λ r. IsOf T.steps r.0 r.1) }
        ensures unseen { IfOk result (λ r. account r.1 ≡ unused) }
        ensures whole { IfOk result (λ r. OwnsAll r.1) }
    {
        let origin = Snapshot::of(&first);
        let slots = stored(alloc, first)?;
        let Ok((table, seat)) = Table::new(alloc, &[0, 0], slots, &origin) else {
            return Err(Memory);
        };
        Ok((KeptTable { table }, PassSeat { seat }))
    }

    // Waits for the turn.
    fn take<R: Wait>(
        &self,
        rt: &R,
        seat: &mut Seat<Stored<T, T::Call, T::Reply>, View<T, T::Call, T::Reply>>,
    )
        requires object { seat.old.table_id ≡ self.now.table.shared.table_id }
        ensures object { (seat.new.table_id ≡ seat.old.table_id) × (seat.new.id ≡ seat.old.id) }
        ensures taken { IsTaken seat.old.me seat.new.me }
    {
        for _ in rt.forever() {
            if self.table.shared.compare_exchange::<Take>(seat, 1, 0, 1) == 0 {
                return;
            }
            thread::yield_now();
        }
        unreachable!()
    }

    /// Waits for the turn, and makes a call as a thread that is alone makes it. It is worn where the object has counted 2^62 calls, and
    /// then nothing happened but that the call was dropped. The pass is one of this object, as are those below.
    pub fn act<R: Wait>(
        &self,
        rt: &R,
        alloc: Global,
        pass: &mut Pass<T>,
        call: T::Call,
    ) -> Result<T::Reply, Worn>
        requires { IsOf T.steps self.now pass.old }
        ensures object { IsOf T.steps self.now pass.new }
        ensures told { IfOk result (λ r. Extends pass.old call r pass.new) }
        ensures worn { IfErr result (λ e. IsWorn pass.old e.count pass.new) }
        ensures whole { OwnsAll pass.old → OwnsAll pass.new }
    {
        let shared = &self.table.shared;
        self.take(rt, &mut pass.seat);
        let count = shared.load::<Count<T>>(&mut pass.seat, 0);
        if count >= CALL_LIMIT {
            shared.store::<Release>(&mut pass.seat, 1, 0);
            return Err(Worn { count });
        }
        let Stored {
            value,
            call: _,
            reply: _,
        } = shared.exchange(
            &mut pass.seat,
            0,
            Stored {
                value: None,
                call: None,
                reply: None,
            },
        );
        let Some(mut value) = value else {
            unreachable!()
        };
        let made = Snapshot::of(&call);
        let reply = value.act(alloc, call);
        shared.exchange(
            &mut pass.seat,
            0,
            Stored {
                value: Some(value),
                call: Some(made),
                reply: Some(Snapshot::of(&reply)),
            },
        );
        shared.fetch_add::<Commit>(&mut pass.seat, 0, 1);
        shared.store::<Release>(&mut pass.seat, 1, 0);
        Ok(reply)
    }

    /// A pass that has seen what this one has seen, and made no call. Each has half the share that this one had.
    pub fn split<R>(&self, _rt: &R, pass: &mut Pass<T>) -> Pass<T>
        requires { IsOf T.steps self.now pass.old }
        ensures object { IsOf T.steps self.now pass.new × IsOf T.steps self.now result }
        ensures same { account pass.new ≡ lent (account pass.old) }
        ensures untaken { (account result ≡ untaken (account pass.old)) × (is_alone result ≡ false) }
    {
        let seat = self.table.shared.split_seat::<SplitPass>(&mut pass.seat);
        PassSeat { seat }
    }

    /// Takes in what another pass has seen, its calls and its share.
    pub fn join<R>(&self, _rt: &R, pass: &mut Pass<T>, other: Pass<T>)
        requires pass { IsOf T.steps self.now pass.old }
        requires other { IsOf T.steps self.now other }
        ensures object { IsOf T.steps self.now pass.new }
        ensures joined { IsJoined (account pass.old) (account other) (account pass.new) }
    {
        let PassSeat { seat } = other;
        let shared = &self.table.shared;
        shared.join_seat::<JoinPass>(&mut pass.seat, seat);
        shared.load::<Learn<T>>(&mut pass.seat, 0);
    }
}
