// Where files are.

ghost use Rattle.std.specs.Prelude.{◌≡◌, List, ℕ, Option};
ghost use Rattle.fed_ports.specs.Causes.{HasCause};
ghost use Rattle.fed_ports.specs.Stores.{Files, Loads, Keeps, HasStoreCause};

use fed_base::{Failed, Text};
use std::alloc::Global;
use thiserror::Error;

/// The most bytes that a file or an input may have.
pub const FILE_LIMIT: usize = 4_194_304;

/// Why a file wasn't loaded.
#[derive(Clone, Copy, Debug, PartialEq, Eq, Drop, Error)]
pub enum StoreFault {
    /// The store failed: its count of faults rose in the call, or stands at its last value, 2^64 - 1.
    #[error("the store failed")]
    Failed,
    /// The file has more than 4,194,304 bytes.
    #[error("the file is too long")]
    TooLong,
    /// Memory was wanting.
    #[error("out of memory")]
    Memory,
}

impl From<fed_base::Memory> for StoreFault {
    ghost use Rattle.fed_ports.specs.declared.store.StoreFault.TheVariants.{Memory};
    ghost use Rattle.std.specs.Prelude.{◌≡◌};

    ghost from_gives = { λ _ e. e ≡ Memory };

    fn from(_: fed_base::Memory) -> Self {
        StoreFault::Memory
    }
}

/// What holds files by their names.
pub trait Store {
    /// The files, where the store tells them.
    ghost files: { Self → Option Files };

    /// How often a call has failed.
    ghost store_faults: { Self → ℕ };

    /// The file of this name, or `None` where there is none. It changes no file, whatever it answers.
    fn load(&mut self, alloc: Global, name: &Text) -> Result<Option<Text>, StoreFault>
        ensures loaded { Loads (files self.old) name.now result }
        ensures files { files self.new ≡ files self.old }
        ensures cause { HasStoreCause (store_faults self.old) (store_faults self.new) result };

    /// Puts these bytes in the place of the whole file of this name. After `Failed` the file is the old or the new one.
    fn keep(&mut self, name: &Text, bytes: &[u8]) -> Result<(), Failed>
        ensures kept { Keeps (files self.old) (files self.new) name.now bytes.now result }
        ensures cause { HasCause (store_faults self.old) (store_faults self.new) result };
}
