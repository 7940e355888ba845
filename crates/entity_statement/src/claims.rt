// The rows of the table of claims: what each claim says, or its fault.

ghost use Rattle.std.specs.Prelude.{◌≡◌, codes, not, unwrap_or, IsTrue};
ghost use Rattle.fed_json.specs.Forms.{members_well_formed};
ghost use Rattle.fed_json.specs.Trees.{find as value_at};
ghost use Rattle.entity_statement.specs.Claims.{no_metadata, told_owner};
ghost use Rattle.entity_statement.specs.Forms.{identifier, moment};
ghost use Rattle.entity_statement.specs.Table.{Gives, GivesBy, all_understood, constraints_in, critical, formed, hints_in, is_operator, key_set, mark_issuers_in, mark_owners_in, marks_in, metadata_in, optional, policy_crit_in, policy_in, required};

use crate::fault::StatementFault;
use crate::forms::{identifier, moment, read_hints};
use crate::marks::{Issuers, MarkEntry, Owner, read_issuers, read_marks, read_owners};
use crate::table::{formed, in_place, required};
use chain_limits::{Constraints, LimitShape};
use entity_id::EntityId;
use fed_base::{Duplicate, Memory, Seq, Text};
use fed_json::{Member, copied_texts, find, is_metadata};
use jwk_set::{JwkSet, SetFault};
use policy_merge::{OPERATORS, Policy, PolicyShape};
use std::alloc::Global;

/// The claim `crit` (section 3.1.1). None of the claims that it can name is understood.
#[tactic(auto, unfolding(crate::specs::Table::critical))]
pub(crate) fn check_critical(alloc: Global, claims: &[Member]) -> Result<(), StatementFault>
    ensures { Gives result (optional tt (codes "crit") critical claims.now) }
{
    let Some(tree) = find(claims, b"crit") else {
        return Ok(());
    };
    let names = copied_texts(alloc, tree)?;
    let names = formed(alloc, b"crit", names)?;
    match names.as_slice().first() {
        Some(name) => Err(StatementFault::Critical(name.copy(alloc)?)),
        None => Err(StatementFault::Shape(Text::of(alloc, b"crit")?)),
    }
}

/// An identifier that must be there.
pub(crate) fn identifier_at(
    alloc: Global,
    claims: &[Member],
    name: &[u8],
) -> Result<EntityId, StatementFault>
    ensures { Gives result (required name.now (formed identifier) claims.now) }
{
    let tree = required(alloc, claims, name)?;
    let id = identifier(alloc, tree)?;
    formed(alloc, name, id)
}

/// A moment that must be there.
pub(crate) fn moment_at(
    alloc: Global,
    claims: &[Member],
    name: &[u8],
) -> Result<u64, StatementFault>
    ensures { Gives result (required name.now (formed moment) claims.now) }
{
    let tree = required(alloc, claims, name)?;
    formed(alloc, name, moment(tree))
}

/// The claim `jwks` (section 3.1.1).
pub(crate) fn keys_in(alloc: Global, claims: &[Member]) -> Result<JwkSet, StatementFault>
    requires { IsTrue (members_well_formed claims.now) }
    ensures { GivesBy (λ set. set.keys) result (required (codes "jwks") key_set claims.now) }
{
    let tree = required(alloc, claims, b"jwks")?;
    match JwkSet::read(alloc, tree) {
        Ok(set) => Ok(set),
        Err(SetFault::Memory) => Err(StatementFault::Memory),
        Err(fault) => Err(StatementFault::Keys(fault)),
    }
}

/// The claim `authority_hints` of a configuration (section 3.1.2).
#[tactic(auto, unfolding(crate::specs::Table::hints_in))]
pub(crate) fn hints_in(
    alloc: Global,
    claims: &[Member],
    own: bool,
) -> Result<Seq<EntityId>, StatementFault>
    ensures { Gives result (hints_in own claims.now) }
{
    let Some(tree) = find(claims, b"authority_hints") else {
        return Ok(Seq::new(alloc));
    };
    in_place(alloc, b"authority_hints", own)?;
    let ids = read_hints(alloc, tree)?;
    formed(alloc, b"authority_hints", ids)
}

/// Whether the claim `metadata` (section 3.1.1) has its form. It is left where it stands, to be moved.
#[tactic(auto, unfolding(crate::specs::Table::metadata_in, crate::specs::Forms::metadata_of))]
pub(crate) fn check_metadata(alloc: Global, claims: &[Member]) -> Result<(), StatementFault>
    ensures { GivesBy (λ _. unwrap_or (value_at (codes "metadata") claims.now) no_metadata) result (metadata_in claims.now) }
{
    let Some(tree) = find(claims, b"metadata") else {
        return Ok(());
    };
    if is_metadata(tree) {
        Ok(())
    } else {
        Err(StatementFault::Shape(Text::of(alloc, b"metadata")?))
    }
}

/// The claim `metadata_policy` of a statement about a subordinate (section 3.1.3).
#[tactic(auto, unfolding(crate::specs::Table::policy_in))]
pub(crate) fn policy_in(
    alloc: Global,
    claims: &[Member],
    own: bool,
) -> Result<Policy, StatementFault>
    requires { IsTrue (members_well_formed claims.now) }
    ensures { Gives result (policy_in own claims.now) }
{
    let Some(tree) = find(claims, b"metadata_policy") else {
        return Ok(Policy::empty(alloc));
    };
    in_place(alloc, b"metadata_policy", !own)?;
    match Policy::read(alloc, tree) {
        Ok(policy) => Ok(policy),
        Err(PolicyShape::Shape) => Err(StatementFault::Shape(Text::of(alloc, b"metadata_policy")?)),
        Err(PolicyShape::Memory) => Err(StatementFault::Memory),
    }
}

/// The claim `metadata_policy_crit` of a statement about a subordinate (section 3.1.3).
#[tactic(auto, unfolding(crate::specs::Table::policy_crit_in, crate::specs::Table::critical_operators))]
pub(crate) fn check_policy_crit(
    alloc: Global,
    claims: &[Member],
    own: bool,
) -> Result<(), StatementFault>
    ensures { Gives result (policy_crit_in own claims.now) }
{
    let Some(tree) = find(claims, b"metadata_policy_crit") else {
        return Ok(());
    };
    in_place(alloc, b"metadata_policy_crit", !own)?;
    let names = copied_texts(alloc, tree)?;
    let names = formed(alloc, b"metadata_policy_crit", names)?;
    all_operators(alloc, names.as_slice())
}

fn all_operators(alloc: Global, names: &[Text]) -> Result<(), StatementFault>
    ensures { Gives result (all_understood is_operator names.now) }
{
    for name in names {
        if !is_operator(name.as_slice()) {
            return Err(StatementFault::Critical(name.copy(alloc)?));
        }
    }
    Ok(())
}

/// Whether it is the name of an operator of metadata policies (section 6.1.3.1).
pub fn is_operator(name: &[u8]) -> bool
    ensures { result ≡ is_operator name.now }
{
    OPERATORS
        .iter()
        .any(|operator| operator.name().as_bytes() == name)
}

/// The claim `constraints` of a statement about a subordinate (section 3.1.3).
#[tactic(auto, unfolding(crate::specs::Table::constraints_in))]
pub(crate) fn constraints_in(
    alloc: Global,
    claims: &[Member],
    own: bool,
) -> Result<Constraints, StatementFault>
    ensures { Gives result (constraints_in own claims.now) }
{
    let Some(tree) = find(claims, b"constraints") else {
        return Ok(Constraints::none(alloc));
    };
    in_place(alloc, b"constraints", !own)?;
    match Constraints::read(alloc, tree) {
        Ok(constraints) => Ok(constraints),
        Err(LimitShape::Shape) => Err(StatementFault::Shape(Text::of(alloc, b"constraints")?)),
        Err(LimitShape::Memory) => Err(StatementFault::Memory),
    }
}

/// The claim `trust_marks`, which is read in a configuration (section 3.1.2).
#[tactic(auto, unfolding(crate::specs::Table::marks_in))]
pub(crate) fn marks_in(
    alloc: Global,
    claims: &[Member],
    own: bool,
) -> Result<Seq<MarkEntry>, StatementFault>
    ensures { Gives result (marks_in own claims.now) }
{
    match find(claims, b"trust_marks") {
        Some(tree) if own => {
            let entries = read_marks(alloc, tree)?;
            formed(alloc, b"trust_marks", entries)
        },
        _ => Ok(Seq::new(alloc)),
    }
}

/// The claim `trust_mark_issuers`, which is read in a configuration (section 3.1.2).
#[tactic(auto, unfolding(crate::specs::Table::mark_issuers_in))]
pub(crate) fn mark_issuers_in(
    alloc: Global,
    claims: &[Member],
    own: bool,
) -> Result<Seq<Issuers>, StatementFault>
    ensures { Gives result (mark_issuers_in own claims.now) }
{
    match find(claims, b"trust_mark_issuers") {
        Some(tree) if own => {
            let entries = read_issuers(alloc, tree)?;
            formed(alloc, b"trust_mark_issuers", entries)
        },
        _ => Ok(Seq::new(alloc)),
    }
}

/// The claim `trust_mark_owners`, which is read in a configuration (section 3.1.2).
#[tactic(auto, unfolding(crate::specs::Table::mark_owners_in))]
pub(crate) fn mark_owners_in(
    alloc: Global,
    claims: &[Member],
    own: bool,
) -> Result<Seq<Owner>, StatementFault>
    requires { IsTrue (members_well_formed claims.now) }
    ensures { GivesBy (Rattle.std.specs.Prelude.map told_owner) result (mark_owners_in own claims.now) }
{
    match find(claims, b"trust_mark_owners") {
        Some(tree) if own => {
            let entries = read_owners(alloc, tree)?;
            formed(alloc, b"trust_mark_owners", entries)
        },
        _ => Ok(Seq::new(alloc)),
    }
}
