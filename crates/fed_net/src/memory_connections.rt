// The connections of a network in memory.

ghost use Rattle.std.specs.Prelude.{◌≡◌, ◌<◌, ◌≤◌, ◌==◌, [], ◌∷◌, None, Some, length, take, IfSome, IfNone, IfOk, option_copied};
ghost use Rattle.std.specs.Bool.{OnTrue, OnFalse};
ghost use Rattle.fed_ports.specs.Exchanges.{fresh, with_sent, with_received, with_failure, Changed, AddedOrSilent};
ghost use Rattle.fed_ports.specs.Lists.{Added};
ghost use Rattle.fed_net.specs.MemoryNetworks.{exchange_of, sent_of, told_of, IsOpen};

use crate::memory_connection::{Connection, Spare};
use fed_base::{Memory, Text};
use fed_ports::Address;
use std::alloc::Global;

/// The connections in order: those that were, the last one, and those that can still be opened, the next one at the end.
#[derive(Drop)]
pub struct Connections {
    alloc: Global,
    room: usize,
    spare: Vec<Spare>,
    done: Vec<Connection>,
    last: Option<Connection>,
    open: bool,
    silent: bool,
}

impl Connections {
    /// A connection for each answer, in order, with room for so many bytes that are sent on each; and the room for so many calls.
    pub fn new(
        alloc: Global,
        answers: &[Text],
        room: usize,
        calls: u64,
    ) -> Result<Connections, Memory>
        ensures told { IfOk result (λ cs. told_of cs ≡ Some []) }
        ensures last { IfOk result (λ cs. cs.last ≡ None) }
    {
        let mut spare = Vec::new(alloc);
        for answer in answers {
            spare.push(Spare::new(alloc, answer, room)?)?;
        }
        spare.reverse();
        let done = Vec::with_capacity(alloc, calls as usize)?;
        Ok(Connections {
            alloc,
            room,
            spare,
            done,
            last: None,
            open: false,
            silent: false,
        })
    }

    // Puts the last connection behind the others. Where there is no room for it, the connections are told no longer.
    fn shelve(&mut self) -> bool
        ensures kept { OnTrue result (told_of self.new ≡ told_of self.old) }
        ensures none { OnTrue result (self.new.last ≡ None) }
        ensures silent { OnFalse result (told_of self.new ≡ None) }
        ensures open { self.new.open ≡ self.old.open }
    {
        let Some(last) = self.last.take() else {
            return true;
        };
        let kept = self.done.push(last).is_ok();
        if !kept {
            self.silent = true;
        }
        kept
    }

    /// Opens the next connection, where there is one.
    pub fn open(&mut self, to: &Address, fails: bool) -> bool
        ensures added { OnTrue result (Added (told_of self.old) (fresh to.now ∷ []) (told_of self.new)) }
        ensures open { OnTrue result (IsOpen self.new) }
        ensures failed { OnFalse result (AddedOrSilent (told_of self.old) (with_failure (fresh to.now)) (told_of self.new)) }
        ensures none { OnFalse result (IsOpen self.new → ⊥) }
    {
        self.open = false;
        if !self.shelve() {
            return false;
        }
        let next = if fails { None } else { self.spare.pop() };
        self.open = next.is_some();
        let last = match next {
            Some(spare) => spare.opened(to),
            None => Connection::refused(self.alloc, to),
        };
        self.last = Some(last);
        self.open
    }

    /// Sends on the open connection.
    pub fn send(&mut self, piece: &[u8], fails: bool) -> Option<usize>
        requires open { IsOpen self.old }
        requires piece { 0 < length piece.now }
        ensures within { IfSome result (λ n. (1 ≤ n) × (n ≤ length piece.now)) }
        ensures sent { IfSome result (λ n. Changed (told_of self.old) (with_sent (take n piece.now)) (told_of self.new)) }
        ensures failed { IfNone result (Changed (told_of self.old) with_failure (told_of self.new)) }
        ensures open { IsOpen self.new }
    {
        let Some(last) = &mut self.last else {
            unreachable!()
        };
        last.send(piece, self.room, fails)
    }

    /// Receives on the open connection.
    pub fn receive(&mut self, into: &mut [u8], fails: bool) -> Option<usize>
        requires open { IsOpen self.old }
        requires buffer { 0 < length into.old }
        ensures within { IfSome result (λ n. n ≤ length into.old) }
        ensures received { IfSome result (λ n. Changed (told_of self.old) (with_received (take n into.new) (n == 0)) (told_of self.new)) }
        ensures failed { IfNone result (Changed (told_of self.old) with_failure (told_of self.new)) }
        ensures buffer { IfNone result (into.new ≡ into.old) }
        ensures open { IsOpen self.new }
    {
        let Some(last) = &mut self.last else {
            unreachable!()
        };
        last.receive(into, fails)
    }

    /// Shuts the open connection. It is told as before.
    pub fn shut(&mut self)
        ensures told { told_of self.new ≡ told_of self.old }
        ensures none { IsOpen self.new → ⊥ }
    {
        self.open = false;
    }

    /// The bytes that were sent on the connection of that number, the first having the number 0.
    pub fn sent(&self, number: usize) -> Option<&[u8]>
        ensures { IfSome (told_of self.now) (λ told. option_copied result ≡ sent_of told number) }
    {
        if number < self.done.len() {
            return Some(self.done[number].sent.as_slice());
        }
        match &self.last {
            Some(last) if number == self.done.len() => Some(last.sent.as_slice()),
            _ => None,
        }
    }
}
