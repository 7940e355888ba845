// The configurations of a rehearsal's entities.

ghost use Rattle.std.specs.Prelude.{◌≡◌, ◌++◌, ◌<◌, decimal, IfOk, OnOk};
ghost use Rattle.rehearsal.specs.Configurations.{comma_before, configured_above, end_of, head_of, key_of, middle_of, parameter_name, parameter_text, parameters_text, resolving_by, value_text};

use fed_base::{Memory, Text};
use std::alloc::Global;

/// The number of the resolver's key.
pub(crate) const RESOLVER_KEY: u8 = 4;

/// A place in the federation, from the trust anchor down to the leaf.
#[derive(Clone, Copy, Drop)]
pub(crate) enum Role {
    Anchor,
    Upper,
    Lower,
    Leaf,
}

impl Role {
    /// The number of the entity's key.
    pub(crate) fn key(self) -> u8
        ensures number { result ≡ key_of self }
        ensures small { result < 5 }
    {
        match self {
            Role::Anchor => 0,
            Role::Upper => 1,
            Role::Leaf => 2,
            Role::Lower => 3,
        }
    }

    // The beginning of the configuration, up to the keys of the subordinate, and of the leaf up to its parameters.
    fn head(self) -> &'static [u8]
        ensures { result.now ≡ head_of self }
    {
        match self {
            Role::Leaf =>
                b"{\"entity_id\":\"https://rp.example\",\"ring\":\"rp\",\"lifetime\":86400,\"authority_hints\":[\"https://jm.example\"],\"metadata\":{\"openid_relying_party\":{",
            Role::Lower =>
                b"{\"entity_id\":\"https://jm.example\",\"ring\":\"jm\",\"lifetime\":86400,\"authority_hints\":[\"https://im.example/fed\"],\"subordinates\":[{\"entity_id\":\"https://rp.example\",\"jwks\":",
            Role::Upper =>
                b"{\"entity_id\":\"https://im.example/fed\",\"ring\":\"im\",\"lifetime\":86400,\"authority_hints\":[\"https://ta.example\"],\"subordinates\":[{\"entity_id\":\"https://jm.example\",\"jwks\":",
            Role::Anchor =>
                b"{\"entity_id\":\"https://ta.example\",\"ring\":\"ta\",\"lifetime\":86400,\"subordinates\":[{\"entity_id\":\"https://im.example/fed\",\"jwks\":",
        }
    }

    // What stands between the keys of the subordinate and the parameters.
    fn middle(self) -> &'static [u8]
        ensures { result.now ≡ middle_of self }
    {
        match self {
            Role::Leaf => b"",
            Role::Lower | Role::Upper | Role::Anchor =>
                b",\"metadata_policy\":{\"openid_relying_party\":{",
        }
    }

    // The end of the configuration.
    fn end(self) -> &'static [u8]
        ensures { result.now ≡ end_of self }
    {
        match self {
            Role::Leaf => b"}}}",
            Role::Lower | Role::Upper | Role::Anchor => b"}}}]}",
        }
    }
}

/// The configuration of an entity above a subordinate with these keys, for so many parameters. The leaf has no subordinate.
#[tactic(auto, unfolding(crate::specs::Configurations::configured_above))]
pub(crate) fn configuration(
    alloc: Global,
    role: Role,
    keys: &[u8],
    params: u64,
) -> Result<Text, Memory>
    ensures { IfOk result (λ text. text ≡ configured_above role keys.now params) }
{
    let mut text = Text::of(alloc, role.head())?;
    text.append(keys)?;
    text.append(role.middle())?;
    add_parameters(alloc, &mut text, role, params)?;
    text.append(role.end())?;
    Ok(text)
}

/// The configuration of the resolver, whose trust anchor has these keys.
#[tactic(auto, unfolding(crate::specs::Configurations::resolving_by))]
pub(crate) fn resolver_configuration(alloc: Global, keys: &[u8]) -> Result<Text, Memory>
    ensures { IfOk result (λ text. text ≡ resolving_by keys.now) }
{
    let mut text = Text::of(
        alloc,
        b"{\"entity_id\":\"https://resolver.example\",\"ring\":\"resolver\",\"lifetime\":86400,\"resolver\":{\"anchors\":[{\"entity_id\":\"https://ta.example\",\"jwks\":",
    )?;
    text.append(keys)?;
    text.append(b"}],\"age\":86400,\"workers\":1,\"control\":{\"keys\":[]},\"routes\":[]}}")?;
    Ok(text)
}

// Adds the first so many parameters, with commas between them.
#[tactic(auto, unfolding(crate::specs::Configurations::parameters_text))]
fn add_parameters(alloc: Global, text: &mut Text, role: Role, params: u64) -> Result<(), Memory>
    ensures { OnOk result (text.new ≡ text.old ++ parameters_text role params) }
{
    for i in 0..params {
        add_member(alloc, text, role, i)?;
    }
    Ok(())
}

// Adds a parameter, behind a comma where it isn't the first.
fn add_member(alloc: Global, text: &mut Text, role: Role, i: u64) -> Result<(), Memory>
    ensures { OnOk result (text.new ≡ text.old ++ (comma_before i ++ parameter_text role i)) }
{
    if i > 0 {
        text.push(b',')?;
    }
    text.push(b'"')?;
    add_name(alloc, text, i)?;
    text.append(b"\":")?;
    add_value(alloc, text, role, i)
}

/// Adds the name of a parameter.
pub(crate) fn add_name(alloc: Global, text: &mut Text, i: u64) -> Result<(), Memory>
    ensures { OnOk result (text.new ≡ text.old ++ parameter_name i) }
{
    text.push(b'p')?;
    add_number(alloc, text, i)
}

// Adds what the leaf's metadata gives the parameter, or what the policy of a superior asks of it.
fn add_value(alloc: Global, text: &mut Text, role: Role, i: u64) -> Result<(), Memory>
    ensures { OnOk result (text.new ≡ text.old ++ value_text role i) }
{
    match role {
        Role::Leaf => add_numbered(alloc, text, b"[\"a", i, b"\",\"b\",\"c\"]"),
        Role::Lower => text.append(b"{\"superset_of\":[\"b\"]}"),
        Role::Upper => text.append(b"{\"add\":[\"b\"],\"essential\":true}"),
        Role::Anchor => add_numbered(alloc, text, b"{\"subset_of\":[\"a", i, b"\",\"b\"]}"),
    }
}

// Adds a number between two pieces.
fn add_numbered(
    alloc: Global,
    text: &mut Text,
    before: &[u8],
    n: u64,
    behind: &[u8],
) -> Result<(), Memory>
    ensures { OnOk result (text.new ≡ text.old ++ (before.now ++ (decimal n ++ behind.now))) }
{
    text.append(before)?;
    add_number(alloc, text, n)?;
    text.append(behind)
}

/// Adds a number in decimal digits.
pub(crate) fn add_number(alloc: Global, text: &mut Text, n: u64) -> Result<(), Memory>
    ensures { OnOk result (text.new ≡ text.old ++ decimal n) }
{
    let digits = format!(in alloc; "{n}")?;
    text.append(digits.as_bytes())
}
