// What a resolver did.

use chain_climb::Bounds;
use entity_id::EntityId;
use fed_base::{Seq, Text};
use fed_ports::Page;
use jwk_set::JwkSet;
use statement_shelf::{BookCall, BookReply, Proven, ShelfCall, ShelfReply};

/// What was got at a URL.
#[derive(Drop)]
pub enum Got {
    /// A text of the cache.
    Hit(Proven),
    /// A page of the link.
    Fetched(Page),
    /// The link failed.
    Fault,
}

/// A URL that a round needed, and what was got there.
#[derive(Drop)]
pub struct Ask {
    /// The URL.
    pub url: Text,
    /// What was got.
    pub got: Got,
}

/// One round.
#[derive(Drop)]
pub struct Search {
    /// The entity whose chain is searched.
    pub leaf: EntityId,
    /// The URLs that were needed, each once, in their order.
    pub asks: Seq<Ask>,
    /// How many texts came from the cache.
    pub hits: u64,
    /// How many pages were asked of the link.
    pub calls: u64,
    /// How many paths were made, the leaf's own among them.
    pub paths: u64,
    /// How many calls of the link failed.
    pub faults: u64,
    /// Whether the round ended at a bound.
    pub ended: bool,
}

/// A text and a key that were tested.
#[derive(Drop)]
pub struct Check {
    /// The signed text.
    pub text: Text,
    /// The key: PK.seed and PK.root.
    pub public: [u8; 32],
    /// Whether the text verifies under the key.
    pub good: bool,
}

/// A call on a shared object, with its reply.
#[derive(Drop)]
pub enum Event {
    /// On the cache.
    Shelf(ShelfCall, ShelfReply),
    /// On the book of trust anchors' keys.
    Book(BookCall, BookReply),
}

/// What a call of the resolver did.
#[derive(Drop)]
pub struct Trace {
    /// The moment of the call, in seconds since 1970.
    pub moment: u64,
    /// How many rotations of keys there were before it.
    pub epoch: u64,
    /// The keys of the trust anchor.
    pub keys: JwkSet,
    /// How far each round goes.
    pub bounds: Bounds,
    /// The rounds, in their order.
    pub searches: Seq<Search>,
    /// The tests of signatures, in their order.
    pub checks: Seq<Check>,
    /// The calls on shared objects, in their order.
    pub events: Seq<Event>,
}
