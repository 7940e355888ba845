// What looks for a trust chain.

ghost use Rattle.std.specs.Prelude.{ℕ, List, Result as AnyResult};
ghost use Rattle.fed_base.specs.declared.faults.Memory.{Memory as NoMemory};
ghost use Rattle.client_register.specs.declared.found.Found.{Found as AnyFound};
ghost use Rattle.client_register.specs.Finders.{FinderSeen, HasAnswered};

use crate::found::Found;
use entity_id::EntityId;
use fed_base::Memory;
use std::alloc::Global;

/// What looks for the trust chain of an entity up to a trust anchor.
pub trait Finder {
    /// How many calls there were, how often one failed, and the last answer.
    ghost seen: { Self → FinderSeen };

    /// What the finder says of one call: how it stood before and after it, the entity, the trust anchor, and the answer.
    ghost gave: { Self → Self → List ℕ → List ℕ → AnyResult AnyFound NoMemory → Type 0 };

    /// The chain of the entity up to the trust anchor, or why there is none. Nothing is said of what a chain holds.
    fn find(&mut self, alloc: Global, leaf: &EntityId, anchor: &EntityId) -> Result<Found, Memory>
        ensures answered { HasAnswered (seen self.old) (seen self.new) result }
        ensures gave { gave self.old self.new leaf.now anchor.now result };
}
