// Laws over the definitions alone.

ghost use Rattle.std.specs.Prelude.{◌≡◌, ◌≢◌, List, None, ℕ, Result};
ghost use Rattle.http_messages.specs.declared.read.ReadEnd.{ReadEnd};
ghost use Rattle.http_messages.specs.declared.request.Incoming.{Incoming};
ghost use Rattle.http_plain.specs.Readings.{Reads};
ghost use Rattle.fed_resolver.specs.Calls.{GaveAll};
ghost use Rattle.fed_serve.specs.declared.node.Node.{Node as AnyNode};
ghost use Rattle.fed_serve.specs.declared.served.Served.{Served as Told};
ghost use Rattle.fed_serve.specs.declared.serving.ServeFault.{ServeFault as AnyFault};
ghost use Rattle.fed_serve.specs.Moments.{Around};
ghost use Rattle.fed_serve.specs.Serving.{IsServed, Serves};
ghost use Rattle.fed_serve.specs.Authorities.{ServesAsAuthority};

use fed_ports::Link;

/// What holds of answers.
pub fn answers<L: Link>()
    // Of a node that doesn't resolve, the same bytes have the same answer at the same moment, want of memory aside.
    ensures one { (node : AnyNode) (from to begun ended : L) (x : List ℕ) (a a' b b' : Around) (c d : Result Incoming ReadEnd) (s t : Told) → node.resolver ≡ None
        → Reads x c → Reads x d → a'.clock.last ≡ b'.clock.last
        → (first : IsServed node (GaveAll L.gave from to) a a' c s) → (second : IsServed node (GaveAll L.gave begun ended) b b' d t)
        → s.status ≢ 507 → t.status ≢ 507 → (s ≡ t) × (first.response ≡ second.response) }
{}

/// What is said of every node says this of one that doesn't resolve.
pub fn authorities<L: Link>()
    ensures { (node : AnyNode) (from to : L) (before now : Around) (result : Result Told AnyFault) → node.resolver ≡ None
        → Serves node (GaveAll L.gave from to) before now result → ServesAsAuthority before now result }
{}
