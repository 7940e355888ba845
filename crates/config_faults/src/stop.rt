// Where a look at a configuration stops.

ghost use Rattle.std.specs.Prelude.{◌≡◌};

use crate::fault::{Kind, found_in};
use crate::forms::Form;
use fed_base::{Memory, Text};
use fed_json::Json;
use std::alloc::Global;

/// Why a look at a configuration stops.
#[derive(Drop)]
pub(crate) enum Stop {
    /// This is wrong at this place.
    Found(Text, Kind),
    /// Memory was wanting.
    Memory,
}

impl From<Memory> for Stop {
    ghost use Rattle.config_faults.specs.declared.stop.Stop.TheVariants.{Memory as WantOfMemory};

    ghost from_gives = { λ _ stop. stop ≡ WantOfMemory };

    fn from(_: Memory) -> Stop {
        Stop::Memory
    }
}

/// What is wrong at the place.
pub(crate) fn fault(alloc: Global, place: &[u8], kind: Kind) -> Stop {
    match Text::of(alloc, place) {
        Ok(place) => Stop::Found(place, kind),
        Err(_) => Stop::Memory,
    }
}

/// What stands at the place isn't of that form.
pub(crate) fn other(alloc: Global, place: &[u8], form: Form, tree: &Json) -> Stop {
    match found_in(alloc, tree) {
        Ok(found) => fault(alloc, place, Kind::Other(form, found)),
        Err(_) => Stop::Memory,
    }
}
