// Connections to others and from others.

ghost use Rattle.std.specs.Prelude.{◌≡◌, ◌<◌, ◌≤◌, ◌==◌, ◌∷◌, [], ℕ, List, length, take, true, is_some, Option, Some, None, IfSome, IfOk, OnOk, OnErr};
ghost use Rattle.fed_ports.specs.Causes.{HasCause};
ghost use Rattle.fed_ports.specs.Exchanges.{Exchange, fresh, with_sent, with_received, with_failure, Changed, AddedOrSilent};
ghost use Rattle.fed_ports.specs.Lists.{Added, Gave};

use crate::address::Address;
use crate::peer::Peer;
use fed_base::{Failed, Memory};
use std::alloc::Global;

/// A network: it has at most one connection open to another, and where it listens it accepts the connections of others.
pub trait Network: Sized + Send {
    type Peer: Peer + Send;

    /// How often a call has failed.
    ghost faults: { Self → ℕ };

    /// A connection is open.
    ghost is_open: { Self → Type 0 };

    /// The port to which connections are accepted, where it listens.
    ghost port: { Self → Option ℕ };

    /// An exchange for each `open`, in order, where the network tells them.
    ghost exchanges: { Self → Option (List Exchange) };

    /// The callers to come, in order, where the network tells them.
    ghost callers: { Self → Option (List Self.Peer) };

    /// The callers that were settled, in order and as they stood then, where the network tells them.
    ghost settled: { Self → Option (List Self.Peer) };

    /// Opens a connection. One that is still open is shut first. `Failed` adds an exchange that failed, but where there is no room for one:
    /// then the exchanges are told no longer.
    fn open(&mut self, to: &Address) -> Result<(), Failed>
        ensures open { OnOk result (is_open self.new) }
        ensures added { OnOk result (Added (exchanges self.old) (fresh to.now ∷ []) (exchanges self.new)) }
        ensures err { OnErr result (AddedOrSilent (exchanges self.old) (with_failure (fresh to.now)) (exchanges self.new)) }
        ensures none { OnErr result (is_open self.new → ⊥) }
        ensures port { port self.new ≡ port self.old }
        ensures callers { callers self.new ≡ callers self.old }
        ensures settled { settled self.new ≡ settled self.old }
        ensures cause { HasCause (faults self.old) (faults self.new) result };

    /// Sends the first bytes of the piece, at least one, and answers how many. `Failed` sends none.
    fn send(&mut self, piece: &[u8]) -> Result<usize, Failed>
        requires open { is_open self.old }
        requires piece { 0 < length piece.now }
        ensures within { IfOk result (λ n. (1 ≤ n) × (n ≤ length piece.now)) }
        ensures sent { IfOk result (λ n. Changed (exchanges self.old) (with_sent (take n piece.now)) (exchanges self.new)) }
        ensures err { OnErr result (Changed (exchanges self.old) with_failure (exchanges self.new)) }
        ensures open { is_open self.new }
        ensures port { port self.new ≡ port self.old }
        ensures callers { callers self.new ≡ callers self.old }
        ensures settled { settled self.new ≡ settled self.old }
        ensures cause { HasCause (faults self.old) (faults self.new) result };

    /// Takes the next bytes into the front of the buffer, and answers how many. `Ok(0)` is the end of what comes. `Failed` takes nothing
    /// away and leaves the buffer as it was.
    fn receive(&mut self, into: &mut [u8]) -> Result<usize, Failed>
        requires open { is_open self.old }
        requires buffer { 0 < length into.old }
        ensures within { IfOk result (λ n. n ≤ length into.old) }
        ensures received { IfOk result (λ n. Changed (exchanges self.old) (with_received (take n into.new) (n == 0)) (exchanges self.new)) }
        ensures err { OnErr result (Changed (exchanges self.old) with_failure (exchanges self.new)) }
        ensures buffer { OnErr result (into.new ≡ into.old) }
        ensures open { is_open self.new }
        ensures port { port self.new ≡ port self.old }
        ensures callers { callers self.new ≡ callers self.old }
        ensures settled { settled self.new ≡ settled self.old }
        ensures cause { HasCause (faults self.old) (faults self.new) result };

    /// Shuts the open connection.
    fn shut(&mut self)
        requires { is_open self.old }
        ensures none { is_open self.new → ⊥ }
        ensures exchanges { exchanges self.new ≡ exchanges self.old }
        ensures port { port self.new ≡ port self.old }
        ensures callers { callers self.new ≡ callers self.old }
        ensures settled { settled self.new ≡ settled self.old }
        ensures faults { faults self.new ≡ faults self.old };

    /// Listens on that port for the connections of others.
    fn listen(&mut self, to: u16) -> Result<(), Failed>
        ensures port { OnOk result (port self.new ≡ Some to) }
        ensures as_before { OnErr result (port self.new ≡ port self.old) }
        ensures open { is_open self.old → is_open self.new }
        ensures exchanges { exchanges self.new ≡ exchanges self.old }
        ensures callers { callers self.new ≡ callers self.old }
        ensures settled { settled self.new ≡ settled self.old }
        ensures cause { HasCause (faults self.old) (faults self.new) result };

    /// Accepts the next connection. `Failed` takes no caller away.
    fn accept(&mut self) -> Result<Self::Peer, Failed>
        requires { is_some (port self.old) ≡ true }
        ensures next { IfOk result (λ peer. Gave (callers self.old) (peer ∷ []) (callers self.new)) }
        ensures err { OnErr result (callers self.new ≡ callers self.old) }
        ensures port { port self.new ≡ port self.old }
        ensures open { is_open self.old → is_open self.new }
        ensures exchanges { exchanges self.new ≡ exchanges self.old }
        ensures settled { settled self.new ≡ settled self.old }
        ensures cause { HasCause (faults self.old) (faults self.new) result };

    /// Takes an accepted peer back and closes its connection. After `Memory` the peer is dropped, which closes it too.
    fn settle(&mut self, alloc: Global, peer: Self::Peer) -> Result<(), Memory>
        ensures settled { OnOk result (Added (settled self.old) (peer ∷ []) (settled self.new)) }
        ensures err { OnErr result (settled self.new ≡ settled self.old) }
        ensures port { port self.new ≡ port self.old }
        ensures open { is_open self.old → is_open self.new }
        ensures exchanges { exchanges self.new ≡ exchanges self.old }
        ensures callers { callers self.new ≡ callers self.old }
        ensures faults { faults self.new ≡ faults self.old };

    /// A network of the same kind, which has nothing open, doesn't listen, and of which no call was made.
    fn another(&self, alloc: Global) -> Result<Self, Memory>
        ensures faults { IfOk result (λ network. faults network ≡ 0) }
        ensures shut { IfOk result (λ network. is_open network → ⊥) }
        ensures silent { IfOk result (λ network. port network ≡ None) }
        ensures exchanges { IfOk result (λ network. IfSome (exchanges network) (λ told. told ≡ [])) }
        ensures settled { IfOk result (λ network. IfSome (settled network) (λ told. told ≡ [])) };
}
