// An entry of the cache.
ghost use Rattle.std.specs.Prelude.{◌≡◌, ◌≤◌, length, IsTrue, IfOk, true};
ghost use Rattle.std.specs.Vec.{vec_capacity};
ghost use Rattle.sealed.specs.Deciding.{are_sealed};
ghost use Rattle.statement_shelf.specs.Entries.{Entry, add_key, max_proved, unproved, with_key};
ghost use Rattle.statement_shelf.specs.Shelf.{Shows};

use crate::calls::Proven;
use fed_base::{Duplicate, Memory, Seq, Text};
use sealed::Sealed;
use std::alloc::Global;
use std::marker::Model;

// How many proved keys an entry keeps.
const MAX_PROVED: usize = 4;

// A text, keys under which it verifies, and when it ends. Its keys have their room from the start.
#[derive(Drop)]
pub(crate) struct CacheEntry {
    text: Text,
    keys: Vec<[u8; 32]>,
    until: u64,
}

impl Model for CacheEntry {
    ghost Value = { Entry };

    ghost view = { λ e. record { text = e.text; keys = e.keys.items; until = e.until } };

    ghost invariant = { λ e. IsTrue (are_sealed e.text e.keys.items) × (length e.keys.items ≤ max_proved) × (max_proved ≤ vec_capacity e.keys) };
}

impl CacheEntry {
    // A text that is not proved yet. It is moved.
    pub(crate) fn new(alloc: Global, text: Text, until: u64) -> Result<CacheEntry, Memory>
        ensures { IfOk result (λ e. e ≡ unproved text until) }
    {
        let keys = Vec::with_capacity(alloc, MAX_PROVED)?;
        Ok(CacheEntry { text, keys, until })
    }

    // Takes another text, which is not proved yet and is moved.
    pub(crate) fn renew(&mut self, text: Text, until: u64)
        ensures { self.new ≡ unproved text until }
    {
        self.keys.clear();
        self.text = text;
        self.until = until;
    }

    // When it ends.
    pub(crate) fn until(&self) -> u64
        ensures { result ≡ self.now.until }
    {
        self.until
    }

    // The text.
    pub(crate) fn text(&self) -> &Text
        ensures { result.now ≡ self.now.text }
    {
        &self.text
    }

    // A copy of the text and its keys.
    pub(crate) fn shown(&self, alloc: Global) -> Result<Proven, Memory>
        ensures { IfOk result (Shows self.now) }
    {
        let text = self.text.copy(alloc)?;
        let keys = Seq::from_vec(Vec::from_slice(alloc, self.keys.as_slice())?);
        Ok(Proven { text, keys })
    }

    // Puts the key of a seal of this text in front, unless it is there. The last of four is dropped for it.
    #[tactic(auto, using(crate::proofs::KeyLaws::sealed_added, crate::proofs::KeyLaws::few_added))]
    pub(crate) fn prove(&mut self, seal: &Sealed)
        requires { self.old.text ≡ seal.now.text }
        ensures { self.new ≡ with_key seal.now.public self.old }
    {
        add_key(&mut self.keys, seal.public());
    }
}

// Puts a key in front of at most four, unless it is there. The last of four is dropped for it.
#[tactic(auto, unfolding(crate::specs::Entries::add_key))]
fn add_key(keys: &mut Vec<[u8; 32]>, key: [u8; 32])
    requires few { length keys.old.items ≤ max_proved }
    requires room { max_proved ≤ vec_capacity keys.old }
    ensures added { keys.new.items ≡ add_key key keys.old.items }
    ensures room { max_proved ≤ vec_capacity keys.new }
{
    if keys.contains(&key) {
        return;
    }
    keys.truncate(MAX_PROVED - 1);
    let Ok(()) = keys.insert(0, key) else {
        unreachable!()
    };
}
