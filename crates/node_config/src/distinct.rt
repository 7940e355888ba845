// Identifiers that differ.

ghost use Rattle.std.specs.Prelude.{◌≡◌, IfOk, map, List, ℕ};
ghost use Rattle.entity_statement.specs.Forms.{all_differ};

use entity_id::EntityId;
use fed_base::Memory;
use std::alloc::Global;
use std::collections::BTreeSet;

/// What has an identifier.
pub(crate) trait HasId {
    ghost id_of: { Self → List ℕ };

    /// The identifier.
    fn id(&self) -> &EntityId
        ensures { result.now ≡ id_of self.now };
}

/// Whether no two of the items have one identifier. Each is looked up among those before it in a tree, so 10,000 of them are no burden.
pub(crate) fn all_differ<T: HasId>(alloc: Global, items: &[T]) -> Result<bool, Memory>
    ensures { IfOk result (λ differ. differ ≡ all_differ (map T.id_of items.now)) }
{
    let mut seen: BTreeSet<&[u8], Global> = BTreeSet::new(alloc);
    for item in items {
        let added = seen.insert(item.id().text())?;
        if !added {
            return Ok(false);
        }
    }
    Ok(true)
}
