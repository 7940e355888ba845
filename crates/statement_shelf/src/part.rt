// A part of the cache.
ghost use Rattle.std.specs.Prelude.{◌≡◌, []};
ghost use Rattle.lru.specs.LruCache.{last_entry};
ghost use Rattle.statement_shelf.specs.Entries.{has_ended};
ghost use Rattle.statement_shelf.specs.Shelf.{ShelfStep};
ghost use Rattle.statement_shelf.specs.declared.calls.ShelfCall.TheVariants.{Look, Put, Prove, Purge};

use crate::address::Address;
use crate::calls::{ShelfCall, ShelfReply};
use crate::entry::CacheEntry;
use fed_base::{Memory, Text};
use lru::LruCache;
use sealed::Sealed;
use std::alloc::Global;
use std::marker::Model;
use std::num::NonZeroUsize;
use turn_log::{Opening, Sequential};

/// How many entries a part keeps.
pub(crate) const MAX_ENTRIES: usize = 32;

/// A part of the cache of statements: at most 32 texts under their URLs, the most recently used first.
#[derive(Drop)]
pub struct ShelfPart {
    entries: LruCache<Address, CacheEntry>,
}

// Contracts see a part as the list of its entries.
impl Model for ShelfPart {
    ghost use Rattle.std.specs.Prelude.{◌≡◌, ◌≤◌, length};
    ghost use Rattle.statement_shelf.specs.Entries.{Part, max_entries};

    ghost Value = { Part };

    ghost view = { λ part. part.entries.entries };

    ghost invariant = { λ part. (part.entries.cap ≡ max_entries) × (length part.entries.entries ≤ max_entries) };
}

impl ShelfPart {
    // The text of a URL, whose entry comes first.
    fn look(&mut self, alloc: Global, url: Text, moment: u64) -> ShelfReply
        ensures { ShelfStep self.old (Look url moment) result self.new }
    {
        let url = Address::of(url);
        let Some(entry) = self.entries.peek(&url) else {
            return ShelfReply::Miss;
        };
        if entry.until() <= moment {
            return ShelfReply::Miss;
        }
        let Ok(proven) = entry.shown(alloc) else {
            return ShelfReply::Memory;
        };
        self.entries.promote(&url);
        ShelfReply::Hit(proven)
    }

    // Puts a text first, in the place of the one of its URL. Where there is one, that takes no memory.
    fn put(&mut self, alloc: Global, url: Text, text: Text, until: u64) -> ShelfReply
        ensures { ShelfStep self.old (Put url text until) result self.new }
    {
        let url = Address::of(url);
        let Some(entry) = self.entries.get_mut(&url) else {
            return self.add(alloc, url, text, until);
        };
        entry.renew(text, until);
        ShelfReply::Done
    }

    // Puts a text first under a URL that has none.
    fn add(&mut self, alloc: Global, url: Address, text: Text, until: u64) -> ShelfReply
        ensures { ShelfStep self.old (Put url text until) result self.new }
    {
        let Ok(entry) = CacheEntry::new(alloc, text, until) else {
            return ShelfReply::Memory;
        };
        let Ok(_) = self.entries.put(url, entry) else {
            return ShelfReply::Memory;
        };
        ShelfReply::Done
    }

    // Notes a key of the text of a URL, whose entry keeps its place.
    fn prove(&mut self, url: Text, seal: Sealed) -> ShelfReply
        ensures { ShelfStep self.old (Prove url seal) result self.new }
    {
        let text = seal.text().as_slice();
        let Some(entry) = self.entries.peek_mut(&Address::of(url)) else {
            return ShelfReply::Gone;
        };
        if entry.text().as_slice() != text {
            return ShelfReply::Gone;
        }
        entry.prove(&seal);
        ShelfReply::Done
    }

    // Drops entries from the back while they have ended.
    fn purge(&mut self, moment: u64) -> ShelfReply
        ensures { ShelfStep self.old (Purge moment) result self.new }
    {
        let before = self.entries.len();
        while last_ended(&self.entries, moment) {
            self.entries.pop_lru();
        }
        ShelfReply::Dropped((before - self.entries.len()) as u64)
    }
}

// Whether the entry at the back has ended.
fn last_ended(entries: &LruCache<Address, CacheEntry>, moment: u64) -> bool
    ensures { result ≡ has_ended moment (last_entry entries.now.entries) }
{
    match entries.peek_lru() {
        Some((_, entry)) => entry.until() <= moment,
        None => false,
    }
}

impl Sequential for ShelfPart {
    type Call = ShelfCall;

    type Reply = ShelfReply;

    ghost steps = { ShelfStep };

    fn act(&mut self, alloc: Global, call: ShelfCall) -> ShelfReply {
        match call {
            ShelfCall::Look { url, moment } => self.look(alloc, url, moment),
            ShelfCall::Put { url, text, until } => self.put(alloc, url, text, until),
            ShelfCall::Prove { url, seal } => self.prove(url, seal),
            ShelfCall::Purge { moment } => self.purge(moment),
        }
    }
}

impl Opening for ShelfPart {
    ghost opening = { [] };

    fn open(alloc: Global) -> Result<ShelfPart, Memory> {
        let Some(room) = NonZeroUsize::new(MAX_ENTRIES) else {
            unreachable!()
        };
        let Ok(entries) = LruCache::new(alloc, room) else {
            return Err(Memory);
        };
        Ok(ShelfPart { entries })
    }
}
