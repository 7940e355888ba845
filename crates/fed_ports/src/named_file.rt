// Files by their names.

ghost use Rattle.std.specs.Prelude.{◌≡◌};
ghost use Rattle.std.specs.Option.{option_copied};
ghost use Rattle.fed_ports.specs.NamedFiles.{file_of};

use fed_base::{Duplicate, Memory, Text};
use std::alloc::Global;

/// A file of a store in memory.
#[derive(Drop)]
pub struct NamedFile {
    pub name: Text,
    pub bytes: Text,
}

impl Duplicate for NamedFile {
    fn copy(&self, alloc: Global) -> Result<Self, Memory> {
        Ok(NamedFile {
            name: self.name.copy(alloc)?,
            bytes: self.bytes.copy(alloc)?,
        })
    }
}

/// The bytes of the last file of that name.
pub fn last_of<'a>(files: &'a [NamedFile], name: &[u8]) -> Option<&'a Text>
    ensures { option_copied result ≡ file_of files.now name.now }
{
    let mut found = None;
    'files: for file in files {
        if file.name.as_slice() == name {
            found = Some(&file.bytes);
        }
    }
    found
}
