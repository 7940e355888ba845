// The constraints of a statement.

ghost use Rattle.std.specs.Prelude.{◌≡◌, IfOk};

use crate::reading::{count, naming, object, texts};
use crate::shape::LimitShape;
use fed_base::{Duplicate, Memory, Seq, Text};
use fed_json::Json;
use std::alloc::Global;

/// The constraints of a statement (OpenID Federation 1.0 section 6.2). Members of other names are left unread.
#[derive(Drop)]
pub struct Constraints {
    /// How many entities may stand between the superior and the leaf, below 2^32 (section 6.2.1).
    pub max_path: Option<u64>,
    /// Where it is there, the names of which each host below matches one (section 6.2.2).
    pub permitted: Option<Seq<Text>>,
    /// The names of which no host below matches one (section 6.2.2).
    pub excluded: Seq<Text>,
    /// Where it is there, the types of entities that are allowed, besides `federation_entity` (section 6.2.3).
    pub types: Option<Seq<Text>>,
}

impl Constraints {
    ghost use Rattle.fed_json.specs.Forms.{IsWellFormed};
    ghost use Rattle.chain_limits.specs.Reading.{Reads, HoldsUtf8, no_constraints, constraints_of};

    /// What a statement without the claim `constraints` sets: no limit. It takes no memory.
    pub fn none(alloc: Global) -> Constraints
        ensures { result ≡ no_constraints }
    {
        Constraints {
            max_path: None,
            permitted: None,
            excluded: Seq::new(alloc),
            types: None,
        }
    }

    /// Reads the claim `constraints` (OpenID Federation 1.0 section 6.2). `max_path_length` is a whole number below 2^32,
    /// `naming_constraints` an object whose `permitted` and `excluded` are lists of texts, and `allowed_entity_types` a
    /// list of texts. Each of them may be missing; `Shape` where one is there in another form.
    #[tactic(auto, unfolding(crate::specs::Reading::constraints_of))]
    pub fn read(alloc: Global, tree: &Json) -> Result<Constraints, LimitShape>
        ensures constraints { Reads result (constraints_of tree.now) }
        ensures utf8 { IsWellFormed tree.now → IfOk result HoldsUtf8 }
    {
        let members = object(tree)?;
        let naming = naming(members)?;
        let max_path = count(members, b"max_path_length")?;
        let permitted = texts(alloc, naming, b"permitted")?;
        let excluded = texts(alloc, naming, b"excluded")?;
        let types = texts(alloc, members, b"allowed_entity_types")?;
        Ok(Constraints {
            max_path,
            permitted,
            excluded: excluded.unwrap_or(Seq::new(alloc)),
            types,
        })
    }
}

impl Duplicate for Constraints {
    fn copy(&self, alloc: Global) -> Result<Self, Memory> {
        let permitted = self.permitted.copy(alloc)?;
        let excluded = self.excluded.copy(alloc)?;
        let types = self.types.copy(alloc)?;
        Ok(Constraints {
            max_path: self.max_path,
            permitted,
            excluded,
            types,
        })
    }
}
