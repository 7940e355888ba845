// Where bytes go.

ghost use Rattle.std.specs.Prelude.{◌≡◌, ◌<◌, ◌≤◌, List, ℕ, length, take, Option, IfOk, OnErr, OnOk};
ghost use Rattle.fed_ports.specs.Causes.{HasCause};
ghost use Rattle.fed_ports.specs.Bytes.{Appends};

use fed_base::Failed;

/// What bytes go to, as standard output or one side of a connection.
pub trait Sink {
    /// The bytes that it was given, where the sink tells them.
    ghost held: { Self → Option (List ℕ) };

    /// The other side: for one end of a connection the bytes that are left to read, where it tells them, and its count of failed reads.
    ghost sink_side: { Self → Option (List ℕ) × ℕ };

    /// How often a call has failed.
    ghost write_faults: { Self → ℕ };

    /// Takes the first bytes of the piece, at least one, and answers how many. `Failed` takes none.
    fn give(&mut self, piece: &[u8]) -> Result<usize, Failed>
        requires { 0 < length piece.now }
        ensures within { IfOk result (λ n. (1 ≤ n) × (n ≤ length piece.now)) }
        ensures bytes { IfOk result (λ n. Appends (held self.old) (held self.new) (take n piece.now)) }
        ensures err { OnErr result (held self.new ≡ held self.old) }
        ensures side { sink_side self.new ≡ sink_side self.old }
        ensures cause { HasCause (write_faults self.old) (write_faults self.new) result };

    /// The last message was given whole: nothing comes behind it. A sink that the other end waits on can tell it so. Nothing that is told
    /// changes, and where a method isn't written nothing is done.
    fn end(&mut self)
        ensures held { held self.new ≡ held self.old }
        ensures side { sink_side self.new ≡ sink_side self.old }
        ensures faults { write_faults self.new ≡ write_faults self.old }
    {}
}

/// Gives all the bytes, in as many calls as it takes, or a beginning of them and then a fault.
pub fn write_all<K: Sink>(out: &mut K, bytes: &[u8]) -> Result<(), Failed>
    ensures ok { OnOk result (Appends (K.held out.old) (K.held out.new) bytes.now) }
    ensures part { OnErr result ((n : ℕ) × (n ≤ length bytes.now) × Appends (K.held out.old) (K.held out.new) (take n bytes.now)) }
    ensures cause { HasCause (K.write_faults out.old) (K.write_faults out.new) result }
    ensures side { K.sink_side out.new ≡ K.sink_side out.old }
{
    let mut at = 0;
    while at < bytes.len() {
        at += out.give(&bytes[at..])?;
    }
    Ok(())
}
