//! Layer 6, the service: objects that threads call in turns, each with one legal history.
//!
//! A [`Kept`] shares an object of one thread, any [`Sequential`], among threads. Each caller has a [`Pass`], which says what it has seen of
//! the object and which calls were its own. A [`KeptGroup`] is eight such objects of one kind and one of another, with a pass for each.
//!
//! # What is promised
//!
//! - All calls on an object stand in one list, in which each was answered as the object of one thread answers it there. A call by
//!   [`Kept::act`] extends what its pass has seen: the pass's list then begins with all that it had seen before and ends with this
//!   call, whose place, and no other, is added to the pass's own. A call on an object of a [`KeptGroup`] does so to the pass on it.
//! - A pass that was split has seen what the first has seen, and no call is its own. A pass that joins another has seen what either
//!   had, and has the calls of both.
//! - The pass that `new` gave and that was never split owns every call on its object.
//! - [`Worn`] is answered exactly where the object has counted 2^62 calls, and then nothing has happened to it.
//!
//! The lists stand in the proofs alone: the running program keeps none, and a call takes no memory but what the object itself takes. A call
//! that wants memory is answered by a reply of the object, and its step says what is left.
//!
//! # What isn't promised
//!
//! - Progress: a call waits for the turn, and nothing says that it gets it. A call whose object waits or never ends holds the turn for
//!   good.
//! - Fairness: one thread may get the turn again and again while another waits.
//! - An order in time: which of two calls comes first in the list is known to callers only by what they have seen, or learn by a join.
//! - An order between objects: each has its own list.
#![tactic(auto)]

mod group;
mod kept;
pub mod laws;
mod parts;
mod pass;
mod rule;
mod sequential;
mod view;
mod worn;

pub use group::{Group, GroupPass, KeptGroup};
pub use kept::{Kept, KeptTable};
pub use pass::{Pass, PassSeat};
pub use rule::Rule;
pub use sequential::{Opening, Sequential};
pub use view::{Share, Stored, View};
pub use worn::Worn;
