// The objects of a configuration whose members have names that are known.

ghost use Rattle.std.specs.Prelude.{◌≡◌};
ghost use Rattle.config_warnings.specs.Parts.{knows, knows_basic, knows_claim};

use entity_statement::is_operator;

/// An object of a configuration.
#[derive(Clone, Copy, Drop)]
pub enum Part {
    /// The configuration itself.
    Node,
    /// One of `subordinates`.
    Subordinate,
    /// The operators of one parameter of a policy.
    Operators,
    /// The constraints of a subordinate.
    Constraints,
    /// The `naming_constraints` among them.
    Naming,
    /// The object `resolver`.
    Resolver,
    /// One of its `anchors`.
    Anchor,
    /// One of its `routes`.
    Route,
    /// One of `trust_marks`.
    Mark,
    /// One of `trust_mark_owners`.
    Owner,
}

impl Part {
    /// Whether a member of that name means something there.
    #[tactic(auto, unfolding(crate::specs::Parts::knows))]
    pub fn knows(self, name: &[u8]) -> bool
        ensures { result ≡ knows self name.now }
    {
        match self {
            Part::Node => knows_basic(name) || knows_claim(name),
            Part::Subordinate => name == b"entity_id".as_slice()
                || name == b"jwks".as_slice()
                || name == b"metadata".as_slice()
                || name == b"metadata_policy".as_slice()
                || name == b"metadata_policy_crit".as_slice()
                || name == b"constraints".as_slice()
                || name == b"entity_types".as_slice()
                || name == b"mark_types".as_slice()
                || name == b"intermediate".as_slice(),
            Part::Operators => is_operator(name),
            Part::Constraints => name == b"max_path_length".as_slice()
                || name == b"naming_constraints".as_slice()
                || name == b"allowed_entity_types".as_slice(),
            Part::Naming => name == b"permitted".as_slice() || name == b"excluded".as_slice(),
            Part::Resolver => name == b"anchors".as_slice()
                || name == b"age".as_slice()
                || name == b"workers".as_slice()
                || name == b"control".as_slice()
                || name == b"routes".as_slice(),
            Part::Anchor => name == b"entity_id".as_slice()
                || name == b"jwks".as_slice()
                || name == b"depth".as_slice()
                || name == b"calls".as_slice()
                || name == b"paths".as_slice(),
            Part::Route => name == b"host".as_slice()
                || name == b"ip".as_slice()
                || name == b"port".as_slice(),
            Part::Mark => name == b"trust_mark_type".as_slice() || name == b"trust_mark".as_slice(),
            Part::Owner => name == b"sub".as_slice() || name == b"jwks".as_slice(),
        }
    }
}

// The members of a node that aren't claims.
fn knows_basic(name: &[u8]) -> bool
    ensures { result ≡ knows_basic name.now }
{
    name == b"entity_id".as_slice()
        || name == b"ring".as_slice()
        || name == b"lifetime".as_slice()
        || name == b"subordinates".as_slice()
        || name == b"revoked_marks".as_slice()
        || name == b"resolver".as_slice()
}

// Those that are claims of its configuration.
fn knows_claim(name: &[u8]) -> bool
    ensures { result ≡ knows_claim name.now }
{
    name == b"metadata".as_slice()
        || name == b"authority_hints".as_slice()
        || name == b"trust_marks".as_slice()
        || name == b"trust_mark_issuers".as_slice()
        || name == b"trust_mark_owners".as_slice()
}
