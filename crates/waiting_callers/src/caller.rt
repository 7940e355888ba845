// Who comes.

ghost use Rattle.std.specs.Prelude.{◌∷◌, [], List, Option};
ghost use Rattle.waiting_callers.specs.Waiters.{Told};
ghost use Rattle.waiting_callers.specs.declared.look.Look.{Look as AnyLook};

use crate::look::Look;

/// A caller that has come: its end of a connection.
pub trait Caller {
    /// Both are the same connection.
    ghost is_same: { Self → Self → Type 0 };

    /// What the looks to come will find, in order, where the caller tells it.
    ghost says: { Self → Option (List AnyLook) };

    /// What is there of its request now. It waits for nothing.
    fn look(&mut self) -> Look
        ensures same { is_same self.old self.new }
        ensures says { Told (says self.old) result (says self.new) };
}
