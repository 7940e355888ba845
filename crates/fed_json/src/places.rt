// Where the values of a list stand.

ghost use Rattle.std.specs.Prelude.{◌≡◌, ◌<◌, ◌↔◌, ◌++◌, ◌∷◌, [], Contains, IfOk, IsNone, IsTrue, List, OnOk, Some, false, length};
ghost use Rattle.std.specs.List.{slice_get};
ghost use Rattle.fed_json.specs.Codes.{HavePlaces, IsAt, Knows, hash_of as hash_in, slot_of};
ghost use Rattle.fed_json.specs.Sets.{is_among};
ghost use Rattle.fed_json.specs.declared.tree.Json.{Json as Tree};

use crate::codes::{code_of, hash_of};
use crate::equal::json_equal;
use crate::sets::is_member;
use crate::tree::Json;
use fed_base::{Memory, Seq};
use std::alloc::Global;
use std::collections::BTreeMap;

// Lists of at most so many values are scanned, which takes some thousand comparisons.
const SHORT: usize = 32;

// So many slots are kept for each value, so that few values find another in their slot.
const SLOTS: usize = 4;

/// Where the values of a list stand, so that a value is looked up and not searched for in the whole list. A slot has the place of the first
/// value whose hash leads to it; other values that it leads to have their places by their codes.
#[derive(Drop)]
pub(crate) struct Places {
    slots: Vec<Option<usize>>,
    by_code: BTreeMap<Vec<u8>, usize>,
    // No places are kept, and the list is scanned.
    scans: bool,
}

impl Places {
    /// The places of no list yet, for one with at most the values of both. Where both lists are short none are kept.
    pub fn new(alloc: Global, a: &Seq<Json>, b: &Seq<Json>) -> Result<Places, Memory>
        ensures { IfOk result (λ places. Knows places []) }
    {
        let scans = a.len() <= SHORT && b.len() <= SHORT;
        let size = if scans {
            0
        } else {
            a.len().saturating_add(b.len()).saturating_mul(SLOTS)
        };
        Ok(Places {
            slots: vec![in alloc; None; size]?,
            by_code: BTreeMap::new(alloc),
            scans,
        })
    }

    /// Keeps a place of each value of the list.
    pub fn put_all(&mut self, alloc: Global, list: &Seq<Json>) -> Result<(), Memory>
        requires { Knows self.old [] }
        ensures { OnOk result (Knows self.new list.now) }
    {
        if self.scans {
            return Ok(());
        }
        for (place, tree) in list.as_slice().iter().enumerate() {
            let slot = self.slot(alloc, tree)?;
            self.put(alloc, slot, place, tree)?;
        }
        Ok(())
    }

    /// Whether the tree is a member of the list.
    pub fn holds(&self, alloc: Global, list: &Seq<Json>, tree: &Json) -> Result<bool, Memory>
        requires { Knows self.now list.now }
        ensures { IfOk result (λ held. held ≡ is_among list.now tree.now) }
    {
        if self.scans {
            return Ok(is_member(list, tree));
        }
        let slot = self.slot(alloc, tree)?;
        self.finds(alloc, slot, list, tree)
    }

    /// Whether the tree is a member of the list. Where it isn't, its place is kept, as it is to be appended.
    pub fn note(&mut self, alloc: Global, list: &Seq<Json>, tree: &Json) -> Result<bool, Memory>
        requires { Knows self.old list.now }
        ensures held { IfOk result (λ held. held ≡ is_among list.now tree.now) }
        ensures stays { IfOk result (λ held. IsTrue held → Knows self.new list.now) }
        ensures known { IfOk result (λ held. held ≡ false → Knows self.new (list.now ++ tree.now ∷ [])) }
    {
        if self.scans {
            return Ok(is_member(list, tree));
        }
        let slot = self.slot(alloc, tree)?;
        if self.finds(alloc, slot, list, tree)? {
            return Ok(true);
        }
        self.put(alloc, slot, list.len(), tree)?;
        Ok(false)
    }

    // The slot to which the tree's hash leads.
    #[tactic(auto, unfolding(crate::specs::Codes::slot_of))]
    fn slot(&self, alloc: Global, tree: &Json) -> Result<usize, Memory>
        requires { 0 < length self.now.slots.items }
        ensures slot { IfOk result (λ slot. slot ≡ slot_of (length self.now.slots.items) tree.now) }
        ensures within { IfOk result (λ slot. slot < length self.now.slots.items) }
    {
        let hash = hash_of(alloc, tree)?;
        Ok(hash as usize % self.slots.len())
    }

    // Whether the tree, whose slot is given, is a member of the list.
    fn finds(
        &self,
        alloc: Global,
        slot: usize,
        list: &Seq<Json>,
        tree: &Json,
    ) -> Result<bool, Memory>
        requires within { slot < length self.now.slots.items }
        requires slot { slot ≡ slot_of (length self.now.slots.items) tree.now }
        requires have { HavePlaces self.now list.now list.now }
        ensures { IfOk result (λ held. held ≡ is_among list.now tree.now) }
    {
        let Some(place) = self.slots[slot] else {
            return Ok(false);
        };
        if is_at(place, list, tree) {
            return Ok(true);
        }
        let code = code_of(alloc, tree)?;
        Ok(is_there(self.by_code.get(code.as_slice()), list, tree))
    }

    // Keeps the place of the tree, whose slot is given.
    fn put(&mut self, alloc: Global, slot: usize, place: usize, tree: &Json) -> Result<(), Memory>
        requires within { slot < length self.old.slots.items }
        requires slot { slot ≡ slot_of (length self.old.slots.items) tree.now }
        ensures put { OnOk result ((list part : List Tree) → slice_get list place ≡ Some tree.now
            → HavePlaces self.old list part → HavePlaces self.new list (part ++ tree.now ∷ [])) }
        ensures stays { OnOk result ((self.new.scans ≡ self.old.scans)
            × (length self.new.slots.items ≡ length self.old.slots.items)) }
    {
        if self.slots[slot].is_none() {
            self.slots[slot] = Some(place);
            return Ok(());
        }
        self.by_code.insert(code_of(alloc, tree)?, place)?;
        Ok(())
    }
}

// Whether the tree stands at the place.
fn is_at(place: usize, list: &Seq<Json>, tree: &Json) -> bool
    ensures { IsTrue result ↔ (slice_get list.now place ≡ Some tree.now) }
{
    match list.as_slice().get(place) {
        Some(member) => json_equal(member, tree),
        None => false,
    }
}

// Whether the tree is a member of the list, where `place` is that of a value with the tree's code. Values of one code are one value, so the
// list isn't scanned; but nothing rests on that.
fn is_there(place: Option<&usize>, list: &Seq<Json>, tree: &Json) -> bool
    requires { IsNone place → ¬ (Contains list.now tree.now) }
    ensures { result ≡ is_among list.now tree.now }
{
    let Some(place) = place else {
        return false;
    };
    if is_at(*place, list, tree) {
        return true;
    }
    is_member(list, tree)
}
