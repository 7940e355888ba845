// What lies in the slot of the table, and what a pass knows.
use std::collections::LinkedList;
use std::snapshot::Snapshot;

/// What lies in the slot: the value, or nothing while a caller has it, and the call that was made last with its reply. These two are
/// snapshots: the proof alone reads them.
#[derive(Drop)]
pub struct Stored<X: Drop, C, R> {
    pub value: Option<X>,
    pub call: Option<Snapshot<C>>,
    pub reply: Option<Snapshot<R>>,
}

/// A share of an object: so many of so many equal units of it.
pub struct Share {
    /// The units that are held.
    pub units: u64,
    /// The units that there are in all.
    pub total: u64,
}

/// What the rule keeps of a pass. It stands in the proofs alone: no value of it is ever made, so that no list takes memory.
pub struct View<X, C, R> {
    /// The calls that were seen, a prefix of the list of all calls.
    pub seen: LinkedList<(C, R)>,
    /// The places in that list of the pass's own calls, rising.
    pub mine: LinkedList<u64>,
    /// The pass's share of the object: the first pass has all of it, a split halves it, and a join adds.
    pub share: Share,
    /// Whether this is the only pass of the object.
    pub alone: bool,
    /// The state in which the object began.
    pub first: Option<X>,
    /// Whether this seat holds the turn.
    pub holds: bool,
    /// Whether the count was loaded since the turn was taken.
    pub fresh: bool,
    /// The state that the list leaves, as the holder of the turn names it.
    pub now: Option<X>,
    /// Of two passes that were joined, what that one had seen that had seen less.
    pub less: LinkedList<(C, R)>,
}
