// The book of trust anchors' keys.
ghost use Rattle.std.specs.Prelude.{◌≡◌, bytes_eq};
ghost use Rattle.std.specs.List.{position};
ghost use Rattle.statement_shelf.specs.Book.{BookStep, opened_with};
ghost use Rattle.statement_shelf.specs.declared.calls.BookCall.TheVariants.{Read, Rotate};

use crate::calls::{AnchorKeys, BookCall, BookReply};
use entity_id::EntityId;
use fed_base::{Duplicate, Seq};
use jwk_set::JwkSet;
use std::alloc::Global;
use std::marker::Model;
use turn_log::Sequential;

// The last epoch.
const LAST_EPOCH: u64 = 1 << 62;

/// Trust anchors with their keys, and the epoch: how many times keys were rotated.
#[derive(Drop)]
pub struct AnchorBook {
    anchors: Seq<AnchorKeys>,
    epoch: u64,
}

impl Model for AnchorBook {
    ghost use Rattle.std.specs.Prelude.{◌≤◌};
    ghost use Rattle.statement_shelf.specs.Book.{Book, last_epoch};
    ghost use Rattle.std.specs.Coded.{codes};
    ghost use Rattle.fed_json.specs.contracts.tree.Json as json;

    ghost Value = { Book };

    ghost coded = { Prim.hlevel (codes, json.the_row.coded) };

    ghost view = { λ book. record { anchors = book.anchors; epoch = book.epoch } };

    ghost invariant = { λ book. book.epoch ≤ last_epoch };
}

impl AnchorBook {
    /// The book as it is opened, at epoch 0.
    pub fn open(anchors: Seq<AnchorKeys>) -> AnchorBook
        ensures { result ≡ opened_with anchors }
    {
        AnchorBook { anchors, epoch: 0 }
    }

    // The place of an anchor.
    fn place_of(&self, anchor: &EntityId) -> Option<usize>
        ensures { result ≡ position (λ a. bytes_eq a.anchor anchor.now) self.now.anchors }
    {
        self.anchors
            .as_slice()
            .iter()
            .position(|listed| listed.anchor == *anchor)
    }

    // The keys of an anchor.
    fn read(&self, alloc: Global, anchor: &EntityId) -> BookReply
        ensures { BookStep self.now (Read anchor.now) result self.now }
    {
        let Some(place) = self.place_of(anchor) else {
            return BookReply::NoAnchor;
        };
        match self.anchors.as_slice()[place].keys.copy(alloc) {
            Ok(keys) => BookReply::Keys {
                epoch: self.epoch,
                keys,
            },
            Err(_) => BookReply::Memory,
        }
    }

    // Replaces the keys of an anchor, where the caller knows the epoch.
    fn rotate(&mut self, anchor: EntityId, from: u64, keys: JwkSet) -> BookReply
        ensures { BookStep self.old (Rotate anchor from keys) result self.new }
    {
        let Some(place) = self.place_of(&anchor) else {
            return BookReply::NoAnchor;
        };
        if from != self.epoch || self.epoch == LAST_EPOCH {
            return BookReply::Behind(self.epoch);
        }
        self.anchors.set(place, AnchorKeys { anchor, keys });
        self.epoch += 1;
        BookReply::Rotated(self.epoch)
    }
}

impl Sequential for AnchorBook {
    type Call = BookCall;

    type Reply = BookReply;

    ghost steps = { BookStep };

    fn act(&mut self, alloc: Global, call: BookCall) -> BookReply {
        match call {
            BookCall::Read { anchor } => self.read(alloc, &anchor),
            BookCall::Epoch => BookReply::At(self.epoch),
            BookCall::Rotate { anchor, from, keys } => self.rotate(anchor, from, keys),
        }
    }
}
