// The key of an entry in the cache.
ghost use Rattle.std.specs.Prelude.{nat_eq, bytes_eq, ◌≡◌};
ghost use Rattle.std.specs.Hash as fed;
ghost use Rattle.std.specs.Cmp.Rules.{comparing, hashing};
ghost use Rattle.std.proofs.Common.{rules};

use fed_base::Text;
use std::hash::{Hash, Hasher};
use std::marker::Model;

// The URL of an entry, which contracts see as its text.
#[derive(Drop)]
pub(crate) struct Address {
    text: Text,
}

impl Model for Address {
    ghost use Rattle.std.specs.Prelude.{List, ℕ};

    ghost Value = { List ℕ };

    ghost view = { λ address. address.text };
}

impl Address {
    // The text, which is moved.
    pub(crate) fn of(text: Text) -> Address
        ensures { result ≡ text }
    {
        Address { text }
    }
}

impl PartialEq for Address {
    ghost eq = { bytes_eq };

    ghost laws = { Prim.search (comparing, rules) };

    fn eq(&self, other: &Address) -> bool {
        self.text.as_slice() == other.text.as_slice()
    }
}

impl Eq for Address {
    ghost laws = { Prim.search (comparing, rules) };
}

impl Hash for Address {
    ghost hash_input = { λ address. fed.slice fed.u8 address };

    ghost respects_eq = { Prim.search (hashing, rules) };

    fn hash<H: Hasher>(&self, state: &mut H) {
        self.text.as_slice().hash(state);
    }
}
