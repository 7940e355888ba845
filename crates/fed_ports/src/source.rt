// Where bytes come from.

ghost use Rattle.std.specs.Prelude.{◌≡◌, ◌<◌, ◌≤◌, List, ℕ, length, Option, IfOk, OnErr};
ghost use Rattle.fed_ports.specs.Causes.{HasCause};
ghost use Rattle.fed_ports.specs.Bytes.{Takes};

use fed_base::Failed;

/// What bytes come from, as standard input or one side of a connection.
pub trait Source {
    /// The bytes that are left, where the source tells them.
    ghost left: { Self → Option (List ℕ) };

    /// The other side: for one end of a connection the bytes that it was given, where it tells them, and its count of failed writes.
    ghost source_side: { Self → Option (List ℕ) × ℕ };

    /// How often a call has failed.
    ghost read_faults: { Self → ℕ };

    /// Takes the next bytes into the front of the buffer, and answers how many. `Ok(0)` is the end of the input. `Failed` takes nothing
    /// away and leaves the buffer as it was.
    fn take(&mut self, into: &mut [u8]) -> Result<usize, Failed>
        requires { 0 < length into.old }
        ensures within { IfOk result (λ n. n ≤ length into.old) }
        ensures bytes { IfOk result (λ n. Takes (left self.old) (left self.new) into.old into.new n) }
        ensures err { OnErr result (left self.new ≡ left self.old) }
        ensures buffer { OnErr result (into.new ≡ into.old) }
        ensures side { source_side self.new ≡ source_side self.old }
        ensures cause { HasCause (read_faults self.old) (read_faults self.new) result };
}
