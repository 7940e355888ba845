// What bytes come from, with a record of what came.

ghost use Rattle.std.specs.Prelude.{◌≡◌, ◌≤◌, ◌<◌, ◌+◌, ◌-◌, ◌++◌, ◌==◌, ℕ, Bool, true, false, List, [], Option, Some, None, length, max, take, IfOk, OnErr};
ghost use Rattle.fed_ports.specs.Causes.{HasCause};
ghost use Rattle.fed_ports.specs.Exchanges.{Exchange};
ghost use Rattle.http_messages.specs.Flows.{BreakCause, Broken, Comes, HeadBroken, HeadBrokenOn, HeadComes, HeadComesOn, OnFailed};
ghost use Rattle.http_messages.specs.Heads.{head_end, head_limit};
ghost use Rattle.http_messages.specs.Asked.{asked_of};

use crate::heads::{HEAD_LIMIT, head_end};
use fed_ports::Failed;
use std::alloc::Global;

/// How more is asked of a thing that bytes come from.
pub trait Inflow<T> {
    /// From one state to another these bytes came, and the end came or didn't.
    ghost came: { T → T → List ℕ → Bool → Type 0 };

    /// From one state to another these bytes came, and then a call failed.
    ghost broke: { T → T → List ℕ → Type 0 };

    /// From one state to another at most so many bytes came.
    ghost few: { T → T → ℕ → Type 0 };

    /// How often a call has failed.
    ghost in_faults: { T → ℕ };

    /// The exchanges that it tells.
    ghost told: { T → Option (List Exchange) };

    /// What is told of it that no call changes.
    ghost fixed: { Type 0 };

    ghost fixed_of: { T → fixed };

    /// It can be asked for more.
    ghost ready: { T → Type 0 };

    ghost came_none: { (a : T) → came a a [] false };

    ghost came_on: { (a b c : T) (x y : List ℕ) (e : Bool) → came a b x false → came b c y e → came a c (x ++ y) e };

    ghost broke_on: { (a b c : T) (x y : List ℕ) → came a b x false → broke b c y → broke a c (x ++ y) };

    ghost few_came: { (a b : T) (x : List ℕ) (e : Bool) (n : ℕ) → came a b x e → length x ≤ n → few a b n };

    ghost few_on: { (a b c : T) (x : List ℕ) (m n : ℕ) → came a b x false → few b c m → length x + m ≤ n → few a c n };

    /// The next bytes, at the front of the buffer; none at the end.
    fn more(from: &mut T, into: &mut [u8]) -> Result<usize, Failed>
        requires some { 0 < length into.old }
        requires ready { ready from.old }
        ensures ready { ready from.new }
        ensures within { IfOk result (λ n. n ≤ length into.old) }
        ensures came { IfOk result (λ n. came from.old from.new (take n into.new) (n == 0)) }
        ensures broke { OnErr result (broke from.old from.new []) }
        ensures few { OnErr result (few from.old from.new 0) }
        ensures asked { asked_of (told from.new) ≡ asked_of (told from.old) }
        ensures still { fixed_of from.new ≡ fixed_of from.old }
        ensures cause { HasCause (in_faults from.old) (in_faults from.new) result };
}

/// Why a reading breaks off.
#[derive(Clone, Copy, Debug, PartialEq, Eq, Drop)]
pub enum Break {
    Failed,
    Memory,
}

/// Adds what comes next to the text, at most so many bytes. Whether the end came.
pub fn pour<T, I: Inflow<T>>(
    from: &mut T,
    buffer: &mut [u8],
    text: &mut Vec<u8>,
    most: usize,
) -> Result<bool, Break>
    requires some { 0 < most }
    requires room { 0 < length buffer.old }
    requires ready { I.ready from.old }
    ensures ready { I.ready from.new }
    ensures comes { IfOk result (λ e. Comes (I.came from.old from.new) text.old.items text.new.items e) }
    ensures stays { IfOk result (λ e. e ≡ true → text.new.items ≡ text.old.items) }
    ensures count { IfOk result (λ e. length text.new.items ≤ length text.old.items + most) }
    ensures grows { IfOk result (λ e. e ≡ false → length text.old.items < length text.new.items) }
    ensures broke { OnFailed result (Broken (I.broke from.old from.new) text.old.items text.new.items) }
    ensures before { OnFailed result (text.new.items ≡ text.old.items) }
    ensures few { OnErr result (I.few from.old from.new most) }
    ensures asked { asked_of (I.told from.new) ≡ asked_of (I.told from.old) }
    ensures still { I.fixed_of from.new ≡ I.fixed_of from.old }
    ensures cause { BreakCause (I.in_faults from.old) (I.in_faults from.new) result }
{
    let room = most.min(buffer.len());
    let n = match I::more(from, &mut buffer[..room]) {
        Ok(n) => n,
        Err(Failed) => return Err(Break::Failed),
    };
    match text.extend_from_slice(&buffer[..n]) {
        Ok(()) => Ok(n == 0),
        Err(_) => Err(Break::Memory),
    }
}

/// Adds what comes until the text has that length or the end came. Whether it came.
pub fn pour_to<T, I: Inflow<T>>(
    from: &mut T,
    buffer: &mut [u8],
    text: &mut Vec<u8>,
    until: usize,
) -> Result<bool, Break>
    requires room { 0 < length buffer.old }
    requires ready { I.ready from.old }
    ensures ready { I.ready from.new }
    ensures comes { IfOk result (λ e. Comes (I.came from.old from.new) text.old.items text.new.items e) }
    ensures full { IfOk result (λ e. e ≡ false → until ≤ length text.new.items) }
    ensures count { IfOk result (λ e. length text.new.items ≤ max until (length text.old.items)) }
    ensures broke { OnFailed result (Broken (I.broke from.old from.new) text.old.items text.new.items) }
    ensures short { OnFailed result (length text.new.items < until) }
    ensures few { OnErr result (I.few from.old from.new (until - length text.old.items)) }
    ensures asked { asked_of (I.told from.new) ≡ asked_of (I.told from.old) }
    ensures still { I.fixed_of from.new ≡ I.fixed_of from.old }
    ensures cause { BreakCause (I.in_faults from.old) (I.in_faults from.new) result }
{
    while text.len() < until {
        let most = until - text.len();
        if pour::<T, I>(from, buffer, text, most)? {
            return Ok(true);
        }
    }
    Ok(false)
}

/// Adds what comes to a text that has no head until it has a whole one, whose length is answered, or there is none.
pub fn pour_head_on<T, I: Inflow<T>>(
    from: &mut T,
    buffer: &mut [u8],
    text: &mut Vec<u8>,
) -> Result<Option<usize>, Break>
    requires none { head_end text.old.items ≡ None }
    requires small { length text.old.items ≤ head_limit }
    requires room { 0 < length buffer.old }
    requires ready { I.ready from.old }
    ensures ready { I.ready from.new }
    ensures comes { IfOk result (λ end. HeadComesOn (I.came from.old from.new) text.old.items text.new.items end) }
    ensures broke { OnFailed result (HeadBrokenOn (I.broke from.old from.new) text.old.items text.new.items) }
    ensures few { OnErr result (I.few from.old from.new head_limit) }
    ensures asked { asked_of (I.told from.new) ≡ asked_of (I.told from.old) }
    ensures still { I.fixed_of from.new ≡ I.fixed_of from.old }
    ensures cause { BreakCause (I.in_faults from.old) (I.in_faults from.new) result }
{
    while text.len() < HEAD_LIMIT {
        let seen = text.len();
        if pour::<T, I>(from, buffer, text, HEAD_LIMIT - seen)? {
            return Ok(None);
        }
        if let Some(len) = head_end(text, seen.saturating_sub(3)) {
            return Ok(Some(len));
        }
    }
    Ok(None)
}

/// Adds what comes to an empty text until it has a whole head, whose length is answered, or there is none.
pub fn pour_head<T, I: Inflow<T>>(
    from: &mut T,
    buffer: &mut [u8],
    text: &mut Vec<u8>,
) -> Result<Option<usize>, Break>
    requires empty { text.old.items ≡ [] }
    requires room { 0 < length buffer.old }
    requires ready { I.ready from.old }
    ensures ready { I.ready from.new }
    ensures comes { IfOk result (λ end. HeadComes (I.came from.old from.new) text.new.items end) }
    ensures broke { OnFailed result (HeadBroken (I.broke from.old from.new) text.new.items) }
    ensures few { OnErr result (I.few from.old from.new head_limit) }
    ensures asked { asked_of (I.told from.new) ≡ asked_of (I.told from.old) }
    ensures still { I.fixed_of from.new ≡ I.fixed_of from.old }
    ensures cause { BreakCause (I.in_faults from.old) (I.in_faults from.new) result }
{
    pour_head_on::<T, I>(from, buffer, text)
}
