// What a round is after.

use chain_climb::Bounds;
use entity_id::EntityId;

/// What a round is after, and how it goes.
#[derive(Drop)]
pub struct Aim {
    /// Whose chain is searched.
    pub leaf: EntityId,
    /// The trust anchor.
    pub anchor: EntityId,
    /// How far the round goes.
    pub bounds: Bounds,
    /// For how many seconds a page is kept at most.
    pub age: u64,
    /// Whether the cache is asked before the link, as in a first round.
    pub looks: bool,
}
