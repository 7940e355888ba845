// Objects of one thread.
use fed_base::Memory;
use std::alloc::Global;

/// An object of one thread: a state that calls change, each with a reply.
pub trait Sequential: Drop {
    /// What is asked of the object.
    type Call: Drop;

    /// What it answers.
    type Reply: Drop;

    /// The old state, the call, the reply and the new state.
    ghost steps: { Self → Self.Call → Self.Reply → Self → Type 0 };

    /// Makes a call. Where memory is wanting, that is one of the replies, and the step says what it leaves.
    fn act(&mut self, alloc: Global, call: Self::Call) -> Self::Reply
        ensures { steps self.old call result self.new };
}

/// An object that begins in one state.
pub trait Opening: Sequential {
    ghost use Rattle.std.specs.Prelude.{◌≡◌, IfOk};

    /// The state in which it begins.
    ghost opening: { Self };

    /// Makes the object.
    fn open(alloc: Global) -> Result<Self, Memory>
        ensures { IfOk result (λ object. object ≡ opening) };
}
