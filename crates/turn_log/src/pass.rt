// What a caller holds of an object.
ghost use Rattle.turn_log.specs.Views.{IsIdle};
ghost use Rattle.turn_log.specs.Runs.{IsAccount};

use crate::sequential::Sequential;
use crate::view::{Stored, View};
use atomic_table::Seat;

/// A seat at the table of an object, whose ghost part is a caller's pass. It holds neither the turn nor the value, and its own places rise
/// and lie in what it has seen. Where it has all of the object, each call that it has seen is its own.
///
/// It is generic in what is stored, since a struct whose field puts its parameters into `Stored` isn't shown to be `Send`.
#[derive(Drop)]
pub struct PassSeat<S, X, C, R> {
    pub(crate) seat: Seat<S, View<X, C, R>>,
    pub ghost idle: { IsIdle seat.me },
    pub ghost own: { IsAccount record { seen = seat.me.0.seen; mine = seat.me.0.mine; share = seat.me.0.share } },
}

/// What a caller has seen of an object, and which of the calls seen were its own.
pub type Pass<T> = PassSeat<
    Stored<T, <T as Sequential>::Call, <T as Sequential>::Reply>,
    T,
    <T as Sequential>::Call,
    <T as Sequential>::Reply,
>;
