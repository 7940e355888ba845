// What was heeded.

ghost use Rattle.std.specs.Prelude.{◌≡◌, OnOk};
ghost use Rattle.mark_status.specs.Stages.{Adds, Nothing, least_with};

use crate::tell::Tell;
use entity_statement::MarkEntry;
use fed_base::{Duplicate, Memory, Seq};
use std::alloc::Global;

/// Which of some marks are kept, by what their issuers tell of them.
#[derive(Drop)]
pub struct Heeded {
    /// Those that are active and those that nobody was asked about, in their order.
    pub kept: Seq<MarkEntry>,
    /// The least `exp` among these, in seconds since 1970, and `None` where none of them ends.
    pub exp: Option<u64>,
    /// What was told of each mark, in their order.
    pub tells: Seq<Tell>,
}

impl Heeded {
    // Nothing was heeded yet.
    pub(crate) fn new(alloc: Global) -> Heeded
        ensures { Nothing result }
    {
        Heeded {
            kept: Seq::new(alloc),
            exp: None,
            tells: Seq::new(alloc),
        }
    }

    // Adds what was told of a mark that ends then. After `Memory` it is in part as it was.
    pub(crate) fn add(
        &mut self,
        alloc: Global,
        entry: &MarkEntry,
        end: Option<u64>,
        tell: Tell,
    ) -> Result<(), Memory>
        ensures { OnOk result (Adds entry.now end tell self.old self.new) }
    {
        if tell.keeps() {
            self.kept.push(entry.copy(alloc)?)?;
            self.exp = least(self.exp, end);
        }
        self.tells.push(tell)
    }
}

// The less of two ends, of which either may be absent.
fn least(first: Option<u64>, second: Option<u64>) -> Option<u64>
    ensures { result ≡ least_with first second }
{
    match (first, second) {
        (Some(first), Some(second)) => Some(first.min(second)),
        (Some(end), None) | (None, Some(end)) => Some(end),
        (None, None) => None,
    }
}

impl Duplicate for Heeded {
    fn copy(&self, alloc: Global) -> Result<Self, Memory> {
        let kept = self.kept.copy(alloc)?;
        let tells = self.tells.copy(alloc)?;
        Ok(Heeded {
            kept,
            exp: self.exp,
            tells,
        })
    }
}
