// A finder that holds its answer.

ghost use Rattle.std.specs.Prelude.{◌≡◌, None};
ghost use Rattle.register_once.specs.Finding.{held_seen};

use client_register::{Finder, Found};
use entity_id::EntityId;
use fed_base::{Duplicate, Memory};
use std::alloc::Global;

/// A finder that gives the answer that it holds, once. Where it holds none, memory was wanting.
#[derive(Drop)]
pub(crate) struct HeldFinder {
    pub(crate) held: Option<Found>,
    pub(crate) calls: u64,
    pub(crate) faults: u64,
    pub(crate) last: Option<Found>,
}

impl HeldFinder {
    /// A finder of which no call was made.
    pub(crate) fn new(held: Option<Found>) -> HeldFinder
        ensures held { result.held ≡ held }
        ensures seen { held_seen result ≡ record { calls = 0; faults = 0; last = None } }
    {
        HeldFinder {
            held,
            calls: 0,
            faults: 0,
            last: None,
        }
    }
}

impl Finder for HeldFinder {
    ghost use Rattle.std.specs.Prelude.{Some, IfOk};

    ghost seen = { λ finder. held_seen finder };

    // An answer is the one that was held.
    ghost gave = { λ old _ _ _ answer. IfOk answer (λ found. old.held ≡ Some found) };

    fn find(
        &mut self,
        alloc: Global,
        _leaf: &EntityId,
        _anchor: &EntityId,
    ) -> Result<Found, Memory> {
        self.calls = self.calls.saturating_add(1);
        let Some(answer) = self.held.take() else {
            return Err(Memory);
        };
        self.last = Some(answer.copy(alloc)?);
        if matches!(answer, Found::Fault) {
            self.faults = self.faults.saturating_add(1);
        }
        Ok(answer)
    }
}
