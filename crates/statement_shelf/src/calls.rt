// The calls on the cache and on the book, and their replies.
ghost use Rattle.std.specs.Prelude.{IsTrue};
ghost use Rattle.sealed.specs.Deciding.{are_sealed};

use entity_id::EntityId;
use fed_base::{Seq, Text};
use jwk_set::JwkSet;
use sealed::Sealed;

/// A signed text, and keys under which it verifies by the algorithm of its header (RFC 7515 section 5.2).
#[derive(Drop)]
pub struct Proven {
    /// The text.
    pub text: Text,
    /// The keys, PK.seed and PK.root each, at most four; the one that was added last comes first.
    pub keys: Seq<[u8; 32]>,
    pub ghost proved: { IsTrue (are_sealed text keys) },
}

/// A call on the cache of statements.
#[derive(Drop)]
pub enum ShelfCall {
    /// Asks for the text of a URL at a moment.
    Look {
        /// The URL from which it was fetched.
        url: Text,
        /// Seconds since 1970.
        moment: u64,
    },
    /// Keeps a text under its URL.
    Put {
        /// The URL from which it was fetched.
        url: Text,
        /// The text.
        text: Text,
        /// The first moment at which it isn't told any more, in seconds since 1970.
        until: u64,
    },
    /// Notes a key under which the text of a URL verifies.
    Prove {
        /// The URL from which it was fetched.
        url: Text,
        /// The text and the key.
        seal: Sealed,
    },
    /// Drops what has ended at a moment and was not used for the longest time.
    Purge {
        /// Seconds since 1970.
        moment: u64,
    },
}

/// What the cache replies.
#[derive(Drop)]
pub enum ShelfReply {
    /// To a Look: the text of the URL, which hasn't ended.
    Hit(Proven),
    /// To a Look: there is none.
    Miss,
    /// To a Put or a Prove.
    Done,
    /// To a Prove: the cache has another text under the URL, or none.
    Gone,
    /// To a Purge: how many entries were dropped.
    Dropped(u64),
    /// To a Look or a Put: memory was wanting, and nothing changed.
    Memory,
}

/// A call on the book of trust anchors' keys.
#[derive(Drop)]
pub enum BookCall {
    /// Asks for the keys of a trust anchor.
    Read {
        /// The anchor.
        anchor: EntityId,
    },
    /// Asks for the epoch: how many rotations there were.
    Epoch,
    /// Replaces the keys of a trust anchor.
    Rotate {
        /// The anchor.
        anchor: EntityId,
        /// The epoch that the caller knows.
        from: u64,
        /// The new keys.
        keys: JwkSet,
    },
}

/// What the book replies.
#[derive(Drop)]
pub enum BookReply {
    /// To a Read: the anchor's keys, and the epoch.
    Keys {
        /// How many rotations there were.
        epoch: u64,
        /// The keys.
        keys: JwkSet,
    },
    /// To an Epoch.
    At(u64),
    /// To a Rotate: the new epoch.
    Rotated(u64),
    /// To a Rotate from another epoch, or where no epoch is left: the book's epoch.
    Behind(u64),
    /// To a Read or a Rotate: the anchor isn't listed.
    NoAnchor,
    /// To a Read or a Rotate: memory was wanting, and nothing changed.
    Memory,
}

/// A trust anchor and its keys.
#[derive(Drop)]
pub struct AnchorKeys {
    /// The anchor.
    pub anchor: EntityId,
    /// Its keys.
    pub keys: JwkSet,
}
