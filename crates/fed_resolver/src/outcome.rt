// What a call answers.

use fed_base::Memory;
use resolve_reply::Reply;
use resolve_round::Trace;
use resolve_search::Halt;

/// Why there is no reply.
#[derive(Drop)]
pub enum Refusal {
    /// The book has no such trust anchor.
    NoAnchor,
    /// The entity's configuration isn't good.
    NotFound,
    /// No chain is valid, and at least one fails by its policies alone.
    PolicyOnly,
    /// There is no valid chain.
    NoChain,
    /// No valid chain was found, and a call of the link failed.
    Unavailable,
    /// No valid chain was found before a bound of the search.
    Budget {
        /// How many pages were asked of the link.
        calls: u64,
        /// How many paths were made.
        paths: u64,
    },
    /// A shared object has counted so many calls, 2^62, and takes no more.
    Worn(u64),
    /// Memory was wanting.
    Memory,
}

impl From<Memory> for Refusal {
    ghost use Rattle.fed_resolver.specs.declared.outcome.Refusal.TheVariants.{Memory};
    ghost use Rattle.std.specs.Prelude.{◌≡◌};

    ghost from_gives = { λ _ refusal. refusal ≡ Memory };

    fn from(_: Memory) -> Self {
        Refusal::Memory
    }
}

impl From<Halt> for Refusal {
    ghost use Rattle.fed_resolver.specs.Refusals.{broken_off};
    ghost use Rattle.std.specs.Prelude.{◌≡◌};

    ghost from_gives = { λ halt refusal. refusal ≡ broken_off halt };

    fn from(halt: Halt) -> Self {
        match halt {
            Halt::Worn(count) => Refusal::Worn(count),
            Halt::Memory => Refusal::Memory,
        }
    }
}

/// What a call answers, and the trace of what it did.
#[derive(Drop)]
pub struct Outcome {
    /// The reply, or why there is none.
    pub result: Result<Reply, Refusal>,
    /// What the call did.
    pub trace: Trace,
}
