// Why a configuration isn't read.

ghost use Rattle.std.specs.Prelude.{Option, ok_or};
ghost use Rattle.node_config.specs.Answers.{Gives, GivesBy, ReadsBy};
ghost use Rattle.node_config.specs.declared.fault.ConfigFault.TheVariants.{Shape};

use fed_base::{Duplicate, Memory, Text};
use std::alloc::Global;
use std::fmt;
use thiserror::Error;

/// Why a node's configuration isn't read.
#[derive(Drop, Error)]
pub enum ConfigFault {
    /// The first member that isn't of its form, by its name; `entity_id` where the configuration isn't an object.
    #[error("a member of the configuration is not of its form")]
    Shape(Text),
    /// Memory was wanting.
    #[error("out of memory")]
    Memory,
}

// As it is displayed, since a text of bytes has no form of its own for readers.
impl fmt::Debug for ConfigFault {
    fn fmt<W: fmt::Write>(&self, f: &mut fmt::Formatter<W>) -> fmt::Result {
        fmt::Display::fmt(self, f)
    }
}

impl From<Memory> for ConfigFault {
    ghost use Rattle.std.specs.Prelude.{◌≡◌};
    ghost use Rattle.node_config.specs.declared.fault.ConfigFault.TheVariants.{Memory};

    ghost from_gives = { λ _ fault. fault ≡ Memory };

    fn from(_: Memory) -> Self {
        ConfigFault::Memory
    }
}

impl Duplicate for ConfigFault {
    fn copy(&self, alloc: Global) -> Result<Self, Memory> {
        match self {
            ConfigFault::Shape(member) => Ok(ConfigFault::Shape(member.copy(alloc)?)),
            ConfigFault::Memory => Ok(ConfigFault::Memory),
        }
    }
}

/// Why a value isn't read.
#[derive(Clone, Copy, Drop)]
pub(crate) enum FormFault {
    /// It isn't of its form.
    Shape,
    /// Memory was wanting.
    Memory,
}

impl From<Memory> for FormFault {
    ghost use Rattle.std.specs.Prelude.{◌≡◌};
    ghost use Rattle.node_config.specs.declared.fault.FormFault.TheVariants.{Memory};

    ghost from_gives = { λ _ fault. fault ≡ Memory };

    fn from(_: Memory) -> Self {
        FormFault::Memory
    }
}
