// The rule of the table, and what each kind of step does to the view of the seat that makes it.
use crate::sequential::Sequential;
use crate::view::{Stored, View};
use atomic_table::{Join, Play, Split, TableRule};
use std::marker::PhantomData;
use std::snapshot::Snapshot;

/// What holds between any two steps. Word 0 counts the calls, word 1 is the turn, and the slot holds the value.
pub struct Rule<T> {
    of: PhantomData<T>,
}

impl<T: Sequential> TableRule<Stored<T, T::Call, T::Reply>, View<T, T::Call, T::Reply>, Snapshot<T>>
    for Rule<T> {
    ghost use Rattle.turn_log.specs.Rule.{TurnInvariant};
    ghost use Rattle.turn_log.specs.Views.{first_view};

    ghost holds = { λ _ s. TurnInvariant T.steps s };

    ghost first = { λ key. first_view key.value };
}

/// Takes the turn, on word 1.
pub struct Take;

impl<X: Drop, C, R> Play<Stored<X, C, R>, View<X, C, R>> for Take {
    ghost use Rattle.turn_log.specs.StepKinds.{Takes};

    ghost then = { Takes };
}

/// Loads the count, on word 0.
pub struct Count<T> {
    of: PhantomData<T>,
}

impl<T: Sequential> Play<Stored<T, T::Call, T::Reply>, View<T, T::Call, T::Reply>> for Count<T> {
    ghost use Rattle.turn_log.specs.StepKinds.{Counts};

    ghost then = { Counts T.steps };
}

/// Commits the call that was just made, on word 0.
pub struct Commit;

impl<X: Drop, C, R> Play<Stored<X, C, R>, View<X, C, R>> for Commit {
    ghost use Rattle.turn_log.specs.StepKinds.{Commits};

    ghost then = { Commits };
}

/// Releases the turn, on word 1.
pub struct Release;

impl<X: Drop, C, R> Play<Stored<X, C, R>, View<X, C, R>> for Release {
    ghost use Rattle.turn_log.specs.StepKinds.{Releases};

    ghost then = { Releases };
}

/// Splits a seat.
pub struct SplitPass;

impl<X, C, R> Split<View<X, C, R>> for SplitPass {
    ghost use Rattle.turn_log.specs.Views.{kept_by_split, given_by_split};

    ghost left = { kept_by_split };

    ghost right = { given_by_split };
}

/// Joins two seats.
pub struct JoinPass;

impl<X, C, R> Join<View<X, C, R>> for JoinPass {
    ghost use Rattle.turn_log.specs.Views.{joined_view, spent_view};

    ghost both = { joined_view };

    ghost spent = { spent_view };
}

/// A load of word 0 that changes no view, by which a joined pass is told what the rule says of it.
pub struct Learn<T> {
    of: PhantomData<T>,
}

impl<T: Sequential> Play<Stored<T, T::Call, T::Reply>, View<T, T::Call, T::Reply>> for Learn<T> {
    ghost use Rattle.turn_log.specs.StepKinds.{Learns};

    ghost then = { Learns T.steps };
}
