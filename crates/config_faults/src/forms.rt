// What has to stand at a place.

/// What has to stand at a place of a configuration.
#[derive(Clone, Copy, Debug, PartialEq, Eq, Drop)]
pub enum Form {
    /// The configuration itself.
    Configuration,
    Identifier,
    /// The name of a ring's file.
    RingName,
    /// A whole number from the one to the other.
    Number(u64, u64),
    /// A number that is kept as it is written.
    Whole,
    /// What the manual says of a member.
    Documented,
    /// Any value but null.
    Value,
    Text,
    Texts,
    Truth,
    Metadata,
    /// The parameters of an entity type, among metadata.
    Parameters,
    Hints,
    Marks,
    Mark,
    Issuers,
    Owners,
    Owner,
    Subordinates,
    Subordinate,
    Policy,
    /// The parameters of an entity type, in a policy.
    PolicyParameters,
    Operators,
    /// What an operator of a policy that has several values takes.
    Values,
    /// The name of an operator.
    Operator,
    Constraints,
    Naming,
    KeySet,
    Keys,
    Key,
    /// The name of a key.
    KeyName,
    PublicKey,
    Resolver,
    Anchors,
    Anchor,
    Routes,
    Route,
    Address,
}

impl Form {
    /// What it is, as a sentence says it behind `must be`; of a whole number its bounds aren't told.
    pub fn words(self) -> &'static [u8] {
        match self {
            Form::Configuration => b"an object with entity_id, ring and lifetime",
            Form::Identifier => b"an identifier, a URL as https://ta.example without ?, # and @",
            Form::RingName => b"a text, the name of the key ring's file",
            Form::Number(_, _) => b"a whole number",
            Form::Whole => b"a whole number from -2^63 to 2^64 - 1",
            Form::Value => b"a value",
            Form::Documented => b"as fed-config(5) says",
            Form::Text => b"a text",
            Form::Texts => b"a list of texts",
            Form::Truth => b"true or false",
            Form::Metadata => b"an object from entity type to parameters",
            Form::Parameters => b"an object of parameters",
            Form::Hints => b"a list of 1 to 32 identifiers",
            _ => self.further_words(),
        }
    }

    fn further_words(self) -> &'static [u8] {
        match self {
            Form::Marks => b"a list of objects with the texts trust_mark_type and trust_mark",
            Form::Mark => b"an object with the texts trust_mark_type and trust_mark",
            Form::Issuers => b"an object from type of trust marks to a list of texts",
            Form::Owners => b"an object from type of trust marks to an object with sub and jwks",
            Form::Owner => b"an object with sub and jwks",
            Form::Subordinates => b"a list of at most 10000 objects with entity_id and jwks",
            Form::Subordinate | Form::Anchor => b"an object with entity_id and jwks",
            Form::Policy => b"an object from entity type to an object from parameter to operators",
            Form::PolicyParameters => b"an object from parameter to operators",
            Form::Operators => b"an object of operators, as {\"one_of\":[..]}",
            Form::Values => b"a list of values",
            Form::Operator =>
                b"an operator: value, add, default, one_of, subset_of, superset_of or essential",
            Form::Constraints =>
                b"an object with max_path_length, naming_constraints and allowed_entity_types",
            _ => self.last_words(),
        }
    }

    fn last_words(self) -> &'static [u8] {
        match self {
            Form::Naming => b"an object with the lists permitted and excluded",
            Form::KeySet => b"a key set, {\"keys\":[..]}",
            Form::Keys => b"a list of at most 64 keys",
            Form::Key => b"an object, a key",
            Form::KeyName => b"a text that isn't empty",
            Form::PublicKey => b"a text of 43 base64url characters",
            Form::Resolver => b"an object with anchors, age, workers, control and routes",
            Form::Anchors => b"a list of 1 to 64 objects with entity_id and jwks",
            Form::Routes => b"a list of objects with host, ip and port",
            Form::Route => b"an object with host, ip and port",
            _ => b"an IPv4 address, four numbers as 127.0.0.1",
        }
    }
}
