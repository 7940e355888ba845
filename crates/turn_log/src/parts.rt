// Many objects of one kind, and a pass for each.
ghost use Rattle.std.specs.Prelude.{◌≡◌, ◌<◌, [], length, slice_index_or, IfOk, IfErr, OnOk, false, ℕ};
ghost use Rattle.turn_log.specs.Passes.{account, is_alone, lent, untaken, unused, Extends, IsSameBut, IsWorn, IsJoined};
ghost use Rattle.turn_log.specs.Objects.{IsOf};
ghost use Rattle.turn_log.specs.Parts.{AllOwned, ArePasses, AreSplit, AreTaken, ChangesAt, account_at};

use crate::kept::Kept;
use crate::pass::Pass;
use crate::sequential::{Opening, Sequential};
use crate::worn::Worn;
use fed_base::Memory;
use std::alloc::Global;
use std::sync::Wait;

// How many objects of the one kind there are.
pub(crate) const PARTS: usize = 8;

// Makes a call on one object.
pub fn act_at<T: Opening, R: Wait>(
    rt: &R,
    alloc: Global,
    objects: &Vec<Kept<T>>,
    passes: &mut Vec<Pass<T>>,
    at: usize,
    call: T::Call,
) -> Result<T::Reply, Worn>
    requires at { at < length objects.now.items }
    requires passes { ArePasses T.steps T.opening objects.now.items passes.old.items }
    ensures passes { ArePasses T.steps T.opening objects.now.items passes.new.items }
    ensures told { IfOk result (λ r. ChangesAt passes.old.items at (λ old new. Extends old call r new) passes.new.items) }
    ensures whole { AllOwned passes.old.items → AllOwned passes.new.items }
    ensures worn { IfErr result (λ e. ChangesAt passes.old.items at (λ old new. IsWorn old e.count new) passes.new.items) }
{
    let object = &objects[at];
    let pass = &mut passes[at];
    object.act(rt, alloc, pass, call)
}

// Splits the pass of one object.
fn split_at<T: Opening, R>(
    rt: &R,
    objects: &Vec<Kept<T>>,
    passes: &mut Vec<Pass<T>>,
    at: usize,
) -> Pass<T>
    requires at { at < length objects.now.items }
    requires passes { ArePasses T.steps T.opening objects.now.items passes.old.items }
    ensures passes { ArePasses T.steps T.opening objects.now.items passes.new.items }
    ensures same { ChangesAt passes.old.items at (λ old new. (account new ≡ lent (account old)) × (account result ≡ untaken (account old)) × (is_alone result ≡ false)) passes.new.items }
    ensures new { (k : _) → IsOf T.steps (slice_index_or objects.now.items at k) result }
{
    let object = &objects[at];
    let pass = &mut passes[at];
    object.split(rt, pass)
}

// Joins a pass of one object.
fn join_at<T: Opening, R>(
    rt: &R,
    objects: &Vec<Kept<T>>,
    passes: &mut Vec<Pass<T>>,
    at: usize,
    other: Pass<T>,
)
    requires at { at < length objects.now.items }
    requires passes { ArePasses T.steps T.opening objects.now.items passes.old.items }
    requires other { (k : _) → IsOf T.steps (slice_index_or objects.now.items at k) other }
    ensures passes { ArePasses T.steps T.opening objects.now.items passes.new.items }
    ensures joined { ChangesAt passes.old.items at (λ old new. IsJoined (account old) (account other) (account new)) passes.new.items }
{
    let object = &objects[at];
    let pass = &mut passes[at];
    object.join(rt, pass, other);
}

// Makes the objects, with a pass for each.
pub fn open_parts<T: Opening>(
    alloc: Global,
    objects: &mut Vec<Kept<T>>,
    passes: &mut Vec<Pass<T>>,
) -> Result<(), Memory>
    requires { (objects.old.items ≡ []) × (passes.old.items ≡ []) }
    ensures passes { OnOk result (ArePasses T.steps T.opening objects.new.items passes.new.items) }
    ensures count { OnOk result (length objects.new.items ≡ 8) }
    ensures whole { OnOk result (AllOwned passes.new.items) }
    ensures new { OnOk result ((n : ℕ) → account_at passes.new.items n ≡ unused) }
{
    for _ in 0..PARTS {
        let (object, pass) = Kept::new(alloc, T::open(alloc)?)?;
        objects.push(object)?;
        passes.push(pass)?;
    }
    Ok(())
}

// Splits the pass of each object.
pub fn split_parts<T: Opening, R>(
    rt: &R,
    objects: &Vec<Kept<T>>,
    passes: &mut Vec<Pass<T>>,
    made: &mut Vec<Pass<T>>,
) -> Result<(), Memory>
    requires passes { ArePasses T.steps T.opening objects.now.items passes.old.items }
    requires made { made.old.items ≡ [] }
    ensures passes { ArePasses T.steps T.opening objects.now.items passes.new.items }
    ensures same { (n : ℕ) → IsSameBut (account_at passes.old.items n) (account_at passes.new.items n) }
    ensures split { OnOk result (AreSplit T.steps T.opening objects.now.items passes.old.items passes.new.items made.new.items (length objects.now.items)) }
{
    for at in 0..objects.len() {
        let pass = split_at(rt, objects, passes, at);
        made.push(pass)?;
    }
    Ok(())
}

// Joins a pass of each object.
pub fn join_parts<T: Opening, R>(
    rt: &R,
    objects: &Vec<Kept<T>>,
    passes: &mut Vec<Pass<T>>,
    mut others: Vec<Pass<T>>,
)
    requires passes { ArePasses T.steps T.opening objects.now.items passes.old.items }
    requires others { ArePasses T.steps T.opening objects.now.items others.items }
    ensures { AreTaken T.steps T.opening objects.now.items passes.old.items others.items passes.new.items 0 }
{
    while let Some(other) = others.pop() {
        let at = others.len();
        join_at(rt, objects, passes, at, other);
    }
}
