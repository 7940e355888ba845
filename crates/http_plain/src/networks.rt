// A network as a client uses it: one connection, which is opened, sent to, read from and shut.

ghost use Rattle.std.specs.Prelude.{◌≡◌, ◌≤◌, ◌<◌, ◌∷◌, ℕ, Bool, List, [], Option, length, take, IfOk, OnOk, OnErr};
ghost use Rattle.fed_ports.specs.Causes.{HasCause};
ghost use Rattle.fed_ports.specs.Exchanges.{AddedOrSilent, Exchange, Changed, fresh, with_failure, with_received, with_sent};
ghost use Rattle.fed_ports.specs.Lists.{Added};
ghost use Rattle.http_plain.specs.ExchangeLaws.{with_broken};
ghost use Rattle.http_plain.specs.Links.{Listening, listening};

use fed_ports::{Address, Failed, Network};
use http_messages::Inflow;

// How a connection of a network is used: without the bound `Send` of `Network`, which a method of an `impl` can't pass on.
pub(crate) trait Wire<T>: Inflow<T> {
    fn open(net: &mut T, to: &Address) -> Result<(), Failed>
        ensures open { OnOk result (Self.ready net.new) }
        ensures none { OnErr result (Self.ready net.new → ⊥) }
        ensures added { OnOk result (Added (Self.told net.old) (fresh to.now ∷ []) (Self.told net.new)) }
        ensures refused { OnErr result (AddedOrSilent (Self.told net.old) (with_failure (fresh to.now)) (Self.told net.new)) }
        ensures still { Self.fixed_of net.new ≡ Self.fixed_of net.old }
        ensures cause { HasCause (Self.in_faults net.old) (Self.in_faults net.new) result };

    fn send(net: &mut T, piece: &[u8]) -> Result<usize, Failed>
        requires open { Self.ready net.old }
        requires piece { 0 < length piece.now }
        ensures open { Self.ready net.new }
        ensures within { IfOk result (λ n. (1 ≤ n) × (n ≤ length piece.now)) }
        ensures sent { IfOk result (λ n. Changed (Self.told net.old) (with_sent (take n piece.now)) (Self.told net.new)) }
        ensures none { OnErr result (Changed (Self.told net.old) with_failure (Self.told net.new)) }
        ensures still { Self.fixed_of net.new ≡ Self.fixed_of net.old }
        ensures cause { HasCause (Self.in_faults net.old) (Self.in_faults net.new) result };

    fn shut(net: &mut T)
        requires { Self.ready net.old }
        ensures none { Self.ready net.new → ⊥ }
        ensures told { Self.told net.new ≡ Self.told net.old }
        ensures still { Self.fixed_of net.new ≡ Self.fixed_of net.old }
        ensures faults { Self.in_faults net.new ≡ Self.in_faults net.old };

    // What comes is received.
    ghost shows: { (a b : T) (x : List ℕ) (e : Bool) → Self.Inflow.came a b x e → Changed (Self.Inflow.told a) (with_received x e) (Self.Inflow.told b) };

    // What came before a call failed is received, and the exchange failed.
    ghost loses: { (a b : T) (x : List ℕ) → Self.Inflow.broke a b x → Changed (Self.Inflow.told a) (with_broken x) (Self.Inflow.told b) };
}

// The connection of a network.
pub(crate) struct Connection;

impl<N: Network> Inflow<N> for Connection {
    ghost use Rattle.http_plain.specs.ExchangeLaws.{broken_on, received_none, received_on};

    ghost came = { λ a b x e. Changed (N.exchanges a) (with_received x e) (N.exchanges b) };

    ghost broke = { λ a b x. Changed (N.exchanges a) (with_broken x) (N.exchanges b) };

    ghost few = { λ _ _ _. Unit {0} };

    ghost in_faults = { λ a. N.faults a };

    ghost told = { λ net. N.exchanges net };

    ghost fixed = { Listening N.Peer };

    ghost fixed_of = { λ net. listening (N.port net) (N.callers net) (N.settled net) };

    ghost ready = { λ a. N.is_open a };

    ghost came_none = { λ a. received_none (N.exchanges a) };

    ghost came_on = { λ a b c x y e p q. received_on (N.exchanges a) (N.exchanges b) (N.exchanges c) x y e p q };

    ghost broke_on = { λ a b c x y p q. broken_on (N.exchanges a) (N.exchanges b) (N.exchanges c) x y p q };

    ghost few_came = { λ _ _ _ _ _ _ _. tt };

    ghost few_on = { λ _ _ _ _ _ _ _ _ _. tt };

    fn more(from: &mut N, into: &mut [u8]) -> Result<usize, Failed> {
        from.receive(into)
    }
}

impl<N: Network> Wire<N> for Connection {
    ghost shows = { λ _ _ _ _ changed. changed };

    ghost loses = { λ _ _ _ changed. changed };

    fn open(net: &mut N, to: &Address) -> Result<(), Failed> {
        net.open(to)
    }

    fn send(net: &mut N, piece: &[u8]) -> Result<usize, Failed> {
        net.send(piece)
    }

    fn shut(net: &mut N) {
        net.shut();
    }
}
