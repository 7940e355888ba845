// Tables by names.

ghost use Rattle.std.specs.Prelude.{◌≡◌, [], ◌∷◌, ◌++◌, OnOk};
ghost use Rattle.policy_merge.specs.Policies.{named};

use fed_base::{Duplicate, Memory, Seq, Text};
use fed_json::Named;
use std::alloc::Global;

/// Adds a value under a copy of its name.
pub(crate) fn add<T: Drop>(
    alloc: Global,
    table: &mut Seq<Named<T>>,
    name: &Text,
    value: T,
) -> Result<(), Memory>
    ensures { OnOk result (table.new ≡ table.old ++ named name.now value ∷ []) }
{
    let name = name.copy(alloc)?;
    table.push(Named { name, value })
}
