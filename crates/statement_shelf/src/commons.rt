// The eight parts of the cache and the book, which threads share.
ghost use Rattle.std.specs.Prelude.{◌≡◌, ◌<◌};
ghost use Rattle.statement_shelf.specs.Entries.{part_of};

use crate::book::AnchorBook;
use crate::calls::{AnchorKeys, BookCall, BookReply, ShelfCall, ShelfReply};
use crate::part::ShelfPart;
use fed_base::{Memory, Seq, Text};
use std::alloc::Global;
use std::sync::Wait;
use turn_log::{GroupPass, KeptGroup, Worn};

/// Objects that threads share: the cache and the book, where the type is [`Commons`].
///
/// It is generic in the nine objects, since a struct whose field names their types isn't shown to be `Sync`.
#[derive(Drop)]
pub struct SharedCommons<G> {
    nine: G,
}

/// The shared cache of statements, in eight parts, and the shared book of trust anchors' keys.
pub type Commons = SharedCommons<KeptGroup<ShelfPart, AnchorBook>>;

/// What a caller holds of [`Commons`]: a pass for each of the nine objects.
pub type FedPass = GroupPass<ShelfPart, AnchorBook>;

// How many parts there are.
const PARTS: usize = 8;

// The part of a URL.
fn part_of(url: &Text) -> usize
    ensures part { result ≡ part_of url.now }
    ensures below { result < 8 }
{
    let mut part = 0;
    for byte in url.as_slice() {
        part = (part + *byte as usize) % PARTS;
    }
    part
}

impl Commons {
    ghost use Rattle.std.specs.Prelude.{◌≡◌, ◌<◌, ◌≤◌, ◌∷◌, [], length, IfOk, IfErr};
    ghost use Rattle.turn_log.specs.Runs.{call_limit};
    ghost use Rattle.turn_log.specs.Groups.{AddsOnBook, AddsOnPart, AreHalved, AreJoined, EndsOnBook, EndsOnPart, IsHistory, IsSame, IsUntaken, IsUnused, OwnsEach, StaysAlone, known};
    ghost use Rattle.statement_shelf.specs.Book.{BookStep, opened_with};
    ghost use Rattle.statement_shelf.specs.Shelf.{ShelfStep};
    ghost use Rattle.statement_shelf.specs.declared.calls.ShelfCall.TheVariants.{Purge};
    ghost use Rattle.statement_shelf.specs.declared.calls.ShelfReply.TheVariants.{Dropped};
    ghost use Rattle.statement_shelf.specs.Passes.{ArePurged, EndsShelfCall, EndsWornCall, IsPassOfAll, IsPurgeOfSome, IsPurgeOfAll, IsShelfCall, IsWornCall, IsWornPart, opened_book};

    /// Empty parts and the book of these anchors at epoch 0, with a pass that has seen nothing and is alone.
    pub fn new(alloc: Global, anchors: Seq<AnchorKeys>) -> Result<(Commons, FedPass), Memory>
        ensures opened { IfOk result (λ r. opened_book r.0 ≡ opened_with anchors) }
        ensures of { IfOk result (λ r. IsPassOfAll r.0 r.1) }
        ensures unused { IfOk result (λ r. IsUnused r.1) }
        ensures whole { IfOk result (λ r. OwnsEach r.1) }
    {
        let (nine, pass) = KeptGroup::new(alloc, AnchorBook::open(anchors))?;
        Ok((SharedCommons { nine }, pass))
    }

    // Purges a part.
    fn purge_part<R: Wait>(
        &self,
        rt: &R,
        alloc: Global,
        pass: &mut FedPass,
        at: usize,
        moment: u64,
    ) -> Result<u64, Worn>
        requires of { IsPassOfAll self.now pass.old }
        requires at { at < 8 }
        ensures of { IsPassOfAll self.now pass.new }
        ensures whole { OwnsEach pass.old → OwnsEach pass.new }
        ensures alone { StaysAlone pass.old pass.new }
        ensures told { IfOk result (λ n. AddsOnPart (known pass.old) at ((Purge moment, Dropped n) ∷ []) (known pass.new)) }
        ensures ends { IfOk result (λ n. EndsOnPart pass.old at (Purge moment, Dropped n) pass.new) }
        ensures few { IfOk result (λ n. n ≤ 32) }
        ensures worn { IfErr result (λ e. (e.count ≡ call_limit) × IsWornPart at (known pass.old) (known pass.new)) }
    {
        let reply = self
            .nine
            .part(rt, alloc, pass, at, ShelfCall::Purge { moment })?;
        self.nine.is_history(pass);
        let ShelfReply::Dropped(count) = reply else {
            unreachable!()
        };
        Ok(count)
    }

    // Purges each part in turn.
    fn purge<R: Wait>(
        &self,
        rt: &R,
        alloc: Global,
        pass: &mut FedPass,
        moment: u64,
    ) -> Result<ShelfReply, Worn>
        requires { IsPassOfAll self.now pass.old }
        ensures of { IsPassOfAll self.now pass.new }
        ensures whole { OwnsEach pass.old → OwnsEach pass.new }
        ensures alone { StaysAlone pass.old pass.new }
        ensures told { IfOk result (λ r. IsShelfCall (Purge moment) r (known pass.old) (known pass.new)) }
        ensures ends { IfOk result (λ r. EndsShelfCall (Purge moment) r pass.old pass.new) }
        ensures worn { IfErr result (λ e. (e.count ≡ call_limit) × IsPurgeOfSome moment (known pass.old) (known pass.new)) }
        ensures first_worn { IfErr result (λ _. EndsWornCall (Purge moment) pass.old pass.new) }
    {
        let mut dropped = 0;
        for at in 0..PARTS {
            let count = self.purge_part(rt, alloc, pass, at, moment)?;
            dropped += count;
        }
        Ok(ShelfReply::Dropped(dropped))
    }

    /// A call on the cache: on the part of its URL, or, of a Purge, on each part in turn. It waits for the part's turn. It is worn where
    /// that part has counted 2^62 calls; a Purge at the first such part, with the parts before it purged.
    pub fn shelf<R: Wait>(
        &self,
        rt: &R,
        alloc: Global,
        pass: &mut FedPass,
        call: ShelfCall,
    ) -> Result<ShelfReply, Worn>
        requires { IsPassOfAll self.now pass.old }
        ensures of { IsPassOfAll self.now pass.new }
        ensures whole { OwnsEach pass.old → OwnsEach pass.new }
        ensures alone { StaysAlone pass.old pass.new }
        ensures told { IfOk result (λ r. IsShelfCall call r (known pass.old) (known pass.new)) }
        ensures ends { IfOk result (λ r. EndsShelfCall call r pass.old pass.new) }
        ensures worn { IfErr result (λ e. (e.count ≡ call_limit) × IsWornCall call (known pass.old) (known pass.new)) }
        ensures first_worn { IfErr result (λ _. EndsWornCall call pass.old pass.new) }
    {
        let at = match &call {
            ShelfCall::Look { url, moment: _ } => part_of(url),
            ShelfCall::Put {
                url,
                text: _,
                until: _,
            } => part_of(url),
            ShelfCall::Prove { url, seal: _ } => part_of(url),
            ShelfCall::Purge { moment } => return self.purge(rt, alloc, pass, *moment),
        };
        self.nine.part(rt, alloc, pass, at, call)
    }

    /// A call on the book. It waits for the book's turn, and is worn where the book has counted 2^62 calls.
    pub fn book<R: Wait>(
        &self,
        rt: &R,
        alloc: Global,
        pass: &mut FedPass,
        call: BookCall,
    ) -> Result<BookReply, Worn>
        requires { IsPassOfAll self.now pass.old }
        ensures of { IsPassOfAll self.now pass.new }
        ensures whole { OwnsEach pass.old → OwnsEach pass.new }
        ensures alone { StaysAlone pass.old pass.new }
        ensures told { IfOk result (λ r. AddsOnBook (known pass.old) ((call, r) ∷ []) (known pass.new)) }
        ensures ends { IfOk result (λ r. EndsOnBook pass.old (call, r) pass.new) }
        ensures worn { IfErr result (λ e. (e.count ≡ call_limit) × AddsOnBook (known pass.old) [] (known pass.new) × (length (known pass.new).book.seen ≡ call_limit)) }
    {
        self.nine.book(rt, alloc, pass, call)
    }

    /// A pass that has seen what this one has seen, and made no call. Each has half the share of each object that this one had. After
    /// `Memory` this one has seen the same and made the same calls, but need not be alone any more, nor have its share.
    pub fn split<R>(&self, rt: &R, alloc: Global, pass: &mut FedPass) -> Result<FedPass, Memory>
        requires { IsPassOfAll self.now pass.old }
        ensures of { IsPassOfAll self.now pass.new }
        ensures same { IsSame (known pass.old) (known pass.new) }
        ensures halved { IfOk result (λ _. AreHalved (known pass.old) (known pass.new)) }
        ensures of_result { IfOk result (λ r. IsPassOfAll self.now r) }
        ensures untaken { IfOk result (λ r. IsUntaken (known pass.old) (known r)) }
    {
        self.nine.split(rt, alloc, pass)
    }

    /// Takes in what another pass has seen, its calls and its shares.
    pub fn join<R>(&self, rt: &R, pass: &mut FedPass, other: FedPass)
        requires pass { IsPassOfAll self.now pass.old }
        requires other { IsPassOfAll self.now other }
        ensures of { IsPassOfAll self.now pass.new }
        ensures joined { AreJoined (known pass.old) (known other) (known pass.new) }
    {
        self.nine.join(rt, pass, other);
    }

    /// What a pass has seen of each part and of the book is legal: each call was answered as the plain list answers it there, from the
    /// empty part and the opened book on.
    pub fn is_history(&self, _pass: &FedPass)
        requires { IsPassOfAll self.now _pass.now }
        ensures { IsHistory ShelfStep [] BookStep (opened_book self.now) (known _pass.now) }
    {
        self.nine.is_history(_pass);
    }
}
