// A word by which one thread tells another how far it is.

use std::hint::spin_loop;
use std::sync::atomic::{AtomicU64, Ordering};

// How often at most a thread that waits looks.
const TURNS: u64 = 1_000_000_000;

/// A flag that is raised once.
#[derive(Drop)]
pub(crate) struct Flag {
    word: AtomicU64,
}

impl Flag {
    /// A flag that isn't raised yet.
    pub(crate) fn new() -> Flag {
        Flag {
            word: AtomicU64::new(0),
        }
    }

    pub(crate) fn raise(&self) {
        self.word.store(1, Ordering::SeqCst);
    }

    /// Waits until it is raised, and answers whether it was: not where it looked 1,000,000,000 times.
    pub(crate) fn is_met(&self) -> bool {
        for _ in 0..TURNS {
            if self.word.load(Ordering::SeqCst) == 1 {
                return true;
            }
            spin_loop();
        }
        false
    }
}

/// What a desk tells: that its link was called as often as the test waits for, and that its peer was answered.
#[derive(Drop)]
pub(crate) struct Signs {
    pub(crate) called: Flag,
    pub(crate) answered: Flag,
}

impl Signs {
    pub(crate) fn new() -> Signs {
        Signs {
            called: Flag::new(),
            answered: Flag::new(),
        }
    }
}
