// Texts by their names.

use fed_base::{Memory, Seq, Text};
use std::alloc::Global;

#[derive(Drop)]
struct Entry {
    name: Text,
    text: Text,
}

/// The texts that rows kept so far.
#[derive(Drop)]
pub(crate) struct Kept {
    entries: Seq<Entry>,
}

impl Kept {
    pub(crate) fn new(alloc: Global) -> Kept {
        Kept {
            entries: Seq::new(alloc),
        }
    }

    /// Keeps the text under this name, in front of what it had.
    pub(crate) fn keep(&mut self, alloc: Global, name: &str, text: Text) -> Result<(), Memory> {
        let name = Text::of(alloc, name.as_bytes())?;
        self.entries.push(Entry { name, text })
    }

    /// The text that was kept last under this name, or nothing.
    pub(crate) fn text(&self, name: &str) -> &[u8] {
        let found = self
            .entries
            .as_slice()
            .iter()
            .rev()
            .find(|entry| entry.name.as_slice() == name.as_bytes());
        match found {
            Some(entry) => entry.text.as_slice(),
            None => b"",
        }
    }

    /// What is given, with the kept text in place of each name between two at signs.
    pub(crate) fn filled(&self, alloc: Global, given: &str) -> Result<Text, Memory> {
        let mut out = Text::new(alloc);
        let mut is_name = false;
        for part in given.split('@') {
            if is_name {
                out.append(self.text(part))?;
            } else {
                out.append(part.as_bytes())?;
            }
            is_name = !is_name;
        }
        Ok(out)
    }
}
