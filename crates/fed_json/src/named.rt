// Items with names.

ghost use Rattle.std.specs.Prelude.{◌≡◌, List, ℕ};

use crate::tree::Member;
use fed_base::{Duplicate, Memory, Text};
use std::alloc::Global;

/// An item of a list that is in rising byte order of its items' names.
pub trait HasName {
    ghost name_of: { Self → List ℕ };

    /// The name's bytes.
    fn name(&self) -> &Text
        ensures { result.now ≡ name_of self.now };
}

/// A value and its name, as an entity type with its parameters or a parameter with its operators.
#[derive(Drop)]
pub struct Named<T> {
    /// The name's bytes, which are UTF-8 in a policy.
    pub name: Text,
    /// What has the name.
    pub value: T,
}

impl<T> HasName for Named<T> {
    ghost name_of = { λ named. named.name };

    fn name(&self) -> &Text {
        &self.name
    }
}

impl HasName for Member {
    ghost name_of = { λ member. member.name };

    fn name(&self) -> &Text {
        &self.name
    }
}

impl<T: Duplicate + Drop> Duplicate for Named<T> {
    fn copy(&self, alloc: Global) -> Result<Self, Memory> {
        let name = self.name.copy(alloc)?;
        let value = self.value.copy(alloc)?;
        Ok(Named { name, value })
    }
}
