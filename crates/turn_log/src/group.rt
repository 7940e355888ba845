// Eight objects of one kind and one of another, and what a caller knows of them.
ghost use Rattle.std.specs.Prelude.{◌≡◌, length};

use crate::kept::Kept;
use crate::parts::{PARTS, act_at, join_parts, open_parts, split_parts};
use crate::pass::Pass;
use crate::sequential::{Opening, Sequential};
use crate::worn::Worn;
use fed_base::Memory;
use std::alloc::Global;
use std::sync::Wait;

/// Eight values of one kind, the parts, and one of another, the book.
///
/// It is generic in the kinds, since a struct whose fields put types into `KeptTable` or `PassSeat` isn't shown to be `Send` or `Sync`.
#[derive(Drop)]
pub struct Group<P, B> {
    pub(crate) parts: Vec<P>,
    pub(crate) book: B,
    pub ghost eight: { length parts.items ≡ 8 },
}

/// Nine objects that threads share.
pub type KeptGroup<T, B> = Group<Kept<T>, Kept<B>>;

/// A pass for each of the nine.
pub type GroupPass<T, B> = Group<Pass<T>, Pass<B>>;

impl<T: Opening, B: Sequential> KeptGroup<T, B> {
    ghost use Rattle.std.specs.Prelude.{◌≡◌, ◌<◌, [], ◌∷◌, length, IfOk, IfErr};
    ghost use Rattle.turn_log.specs.Runs.{call_limit};
    ghost use Rattle.turn_log.specs.Groups.{AddsOnPart, AddsOnBook, AreHalved, AreOf, EndsOnPart, EndsOnBook, IsUnused, IsSame, IsUntaken, AreJoined, IsHistory, OwnsEach, StaysAlone, known, opened};

    /// The parts, each in the state in which it begins, and the book in this one, with a pass that has seen nothing and is alone.
    pub fn new(alloc: Global, book: B) -> Result<(KeptGroup<T, B>, GroupPass<T, B>), Memory>
        ensures opened { IfOk result (λ r. opened r.0 ≡ book) }
        ensures of { IfOk result (λ r. AreOf T.steps T.opening B.steps r.0 r.1) }
        ensures unused { IfOk result (λ r. IsUnused r.1) }
        ensures whole { IfOk result (λ r. OwnsEach r.1) }
    {
        let mut parts = Vec::new(alloc);
        let mut passes = Vec::new(alloc);
        open_parts(alloc, &mut parts, &mut passes)?;
        let (book, pass) = Kept::new(alloc, book)?;
        Ok((
            Group { parts, book },
            Group {
                parts: passes,
                book: pass,
            },
        ))
    }

    /// A call on the part of this number.
    pub fn part<R: Wait>(
        &self,
        rt: &R,
        alloc: Global,
        pass: &mut GroupPass<T, B>,
        at: usize,
        call: T::Call,
    ) -> Result<T::Reply, Worn>
        requires of { AreOf T.steps T.opening B.steps self.now pass.old }
        requires at { at < 8 }
        ensures of { AreOf T.steps T.opening B.steps self.now pass.new }
        ensures whole { OwnsEach pass.old → OwnsEach pass.new }
        ensures alone { StaysAlone pass.old pass.new }
        ensures told { IfOk result (λ r. AddsOnPart (known pass.old) at ((call, r) ∷ []) (known pass.new)) }
        ensures ends { IfOk result (λ r. EndsOnPart pass.old at (call, r) pass.new) }
        ensures worn { IfErr result (λ e. (e.count ≡ call_limit) × AddsOnPart (known pass.old) at [] (known pass.new) × (length ((known pass.new).part at).seen ≡ call_limit)) }
    {
        act_at(rt, alloc, &self.parts, &mut pass.parts, at, call)
    }

    /// A call on the book.
    pub fn book<R: Wait>(
        &self,
        rt: &R,
        alloc: Global,
        pass: &mut GroupPass<T, B>,
        call: B::Call,
    ) -> Result<B::Reply, Worn>
        requires { AreOf T.steps T.opening B.steps self.now pass.old }
        ensures of { AreOf T.steps T.opening B.steps self.now pass.new }
        ensures whole { OwnsEach pass.old → OwnsEach pass.new }
        ensures alone { StaysAlone pass.old pass.new }
        ensures told { IfOk result (λ r. AddsOnBook (known pass.old) ((call, r) ∷ []) (known pass.new)) }
        ensures ends { IfOk result (λ r. EndsOnBook pass.old (call, r) pass.new) }
        ensures worn { IfErr result (λ e. (e.count ≡ call_limit) × AddsOnBook (known pass.old) [] (known pass.new) × (length (known pass.new).book.seen ≡ call_limit)) }
    {
        self.book.act(rt, alloc, &mut pass.book, call)
    }

    /// A pass that has seen what this one has seen, and made no call. Each has half the share of each object that this one had. After
    /// `Memory` this one has seen the same and made the same calls, but need not be alone any more, nor have its share.
    pub fn split<R>(
        &self,
        rt: &R,
        alloc: Global,
        pass: &mut GroupPass<T, B>,
    ) -> Result<GroupPass<T, B>, Memory>
        requires { AreOf T.steps T.opening B.steps self.now pass.old }
        ensures of { AreOf T.steps T.opening B.steps self.now pass.new }
        ensures same { IsSame (known pass.old) (known pass.new) }
        ensures halved { IfOk result (λ _. AreHalved (known pass.old) (known pass.new)) }
        ensures of_result { IfOk result (λ r. AreOf T.steps T.opening B.steps self.now r) }
        ensures untaken { IfOk result (λ r. IsUntaken (known pass.old) (known r)) }
    {
        let mut parts = Vec::new(alloc);
        split_parts(rt, &self.parts, &mut pass.parts, &mut parts)?;
        let book = self.book.split(rt, &mut pass.book);
        Ok(Group { parts, book })
    }

    /// Takes in what another pass has seen, its calls and its shares.
    pub fn join<R>(&self, rt: &R, pass: &mut GroupPass<T, B>, other: GroupPass<T, B>)
        requires pass { AreOf T.steps T.opening B.steps self.now pass.old }
        requires other { AreOf T.steps T.opening B.steps self.now other }
        ensures of { AreOf T.steps T.opening B.steps self.now pass.new }
        ensures joined { AreJoined (known pass.old) (known other) (known pass.new) }
    {
        let Group { parts, book } = other;
        join_parts(rt, &self.parts, &mut pass.parts, parts);
        self.book.join(rt, &mut pass.book, book);
    }

    /// What a pass of the nine has seen of each is legal from the state in which that one began.
    pub fn is_history(&self, _pass: &GroupPass<T, B>)
        requires { AreOf T.steps T.opening B.steps self.now _pass.now }
        ensures { IsHistory T.steps T.opening B.steps (opened self.now) (known _pass.now) }
    {}
}
