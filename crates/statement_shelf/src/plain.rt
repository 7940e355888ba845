// A part of the cache as a plain list.
ghost use Rattle.std.specs.Prelude.{◌≡◌, ◌-◌, [], bytes_eq, length, slice_get};
ghost use Rattle.std.specs.List.{position};
ghost use Rattle.statement_shelf.specs.Entries.{has_ended, without};
ghost use Rattle.statement_shelf.specs.Shelf.{ShelfStep};
ghost use Rattle.statement_shelf.specs.declared.calls.ShelfCall.TheVariants.{Look, Put, Prove, Purge};

use crate::address::Address;
use crate::calls::{ShelfCall, ShelfReply};
use crate::entry::CacheEntry;
use crate::part::MAX_ENTRIES;
use fed_base::{Memory, Text};
use sealed::Sealed;
use std::alloc::Global;
use std::marker::Model;
use turn_log::{Opening, Sequential};

/// A part of the cache of statements as a plain list of entries, the most recently used first. It does what
/// [`ShelfPart`](crate::ShelfPart) does, and stands for comparison.
#[derive(Drop)]
pub struct PlainPart {
    // It has room for one entry more than it keeps.
    entries: Vec<(Address, CacheEntry)>,
}

// Contracts see a part as the list of its entries.
impl Model for PlainPart {
    ghost use Rattle.std.specs.Prelude.{◌≤◌, ◌<◌, length};
    ghost use Rattle.std.specs.Vec.{vec_capacity};
    ghost use Rattle.statement_shelf.specs.Entries.{Part, max_entries};

    ghost Value = { Part };

    ghost view = { λ part. part.entries.items };

    ghost invariant = { λ part. (length part.entries.items ≤ max_entries) × (max_entries < vec_capacity part.entries) };
}

impl PlainPart {
    // The place of a URL.
    fn place_of(&self, url: &Address) -> Option<usize>
        ensures { result ≡ position (λ e. bytes_eq url.now e.0) self.now }
    {
        self.entries.iter().position(|entry| *url == entry.0)
    }

    // The text of a URL, whose entry comes first.
    fn look(&mut self, alloc: Global, url: Text, moment: u64) -> ShelfReply
        ensures { ShelfStep self.old (Look url moment) result self.new }
    {
        let Some(at) = self.place_of(&Address::of(url)) else {
            return ShelfReply::Miss;
        };
        let entry = &self.entries[at].1;
        if entry.until() <= moment {
            return ShelfReply::Miss;
        }
        let Ok(proven) = entry.shown(alloc) else {
            return ShelfReply::Memory;
        };
        let first = self.entries.remove(at);
        let Ok(()) = self.entries.insert(0, first) else {
            unreachable!()
        };
        ShelfReply::Hit(proven)
    }

    // Drops the entry of a URL.
    fn take_out(&mut self, url: &Address)
        ensures { self.new ≡ without url.now self.old }
    {
        let Some(at) = self.place_of(url) else {
            return;
        };
        self.entries.remove(at);
    }

    // Puts a text first, in the place of the one of its URL.
    fn put(&mut self, alloc: Global, url: Text, text: Text, until: u64) -> ShelfReply
        ensures { ShelfStep self.old (Put url text until) result self.new }
    {
        let Ok(entry) = CacheEntry::new(alloc, text, until) else {
            return ShelfReply::Memory;
        };
        let url = Address::of(url);
        self.take_out(&url);
        let Ok(()) = self.entries.insert(0, (url, entry)) else {
            unreachable!()
        };
        self.entries.truncate(MAX_ENTRIES);
        ShelfReply::Done
    }

    // Notes a key of the text of a URL, whose entry keeps its place.
    fn prove(&mut self, url: Text, seal: Sealed) -> ShelfReply
        ensures { ShelfStep self.old (Prove url seal) result self.new }
    {
        let text = seal.text().as_slice();
        let Some(at) = self.place_of(&Address::of(url)) else {
            return ShelfReply::Gone;
        };
        let entry = &mut self.entries[at].1;
        if entry.text().as_slice() != text {
            return ShelfReply::Gone;
        }
        entry.prove(&seal);
        ShelfReply::Done
    }

    // Drops entries from the back while they have ended.
    fn purge(&mut self, moment: u64) -> ShelfReply
        ensures { ShelfStep self.old (Purge moment) result self.new }
    {
        let before = self.entries.len();
        while last_ended(self.entries.as_slice(), moment) {
            self.entries.pop();
        }
        ShelfReply::Dropped((before - self.entries.len()) as u64)
    }
}

// Whether the entry at the back has ended.
fn last_ended(entries: &[(Address, CacheEntry)], moment: u64) -> bool
    ensures { result ≡ has_ended moment (slice_get entries.now (length entries.now - 1)) }
{
    match entries.last() {
        Some((_, entry)) => entry.until() <= moment,
        None => false,
    }
}

impl Sequential for PlainPart {
    type Call = ShelfCall;

    type Reply = ShelfReply;

    ghost steps = { ShelfStep };

    fn act(&mut self, alloc: Global, call: ShelfCall) -> ShelfReply {
        match call {
            ShelfCall::Look { url, moment } => self.look(alloc, url, moment),
            ShelfCall::Put { url, text, until } => self.put(alloc, url, text, until),
            ShelfCall::Prove { url, seal } => self.prove(url, seal),
            ShelfCall::Purge { moment } => self.purge(moment),
        }
    }
}

impl Opening for PlainPart {
    ghost opening = { [] };

    fn open(alloc: Global) -> Result<PlainPart, Memory> {
        let entries = Vec::with_capacity(alloc, MAX_ENTRIES + 1)?;
        Ok(PlainPart { entries })
    }
}
