// The claims of a statement by kind: those that each has, those of a superior's, what a configuration says of trust marks, and all
// beside the first.

ghost use Rattle.std.specs.Prelude.{◌≡◌, ◌<◌, codes, unwrap_or, IfOk, IsTrue};
ghost use Rattle.std.specs.List.{list_all};
ghost use Rattle.std.specs.Str.{is_utf8};
ghost use Rattle.fed_base.specs.Moments.{moment_limit};
ghost use Rattle.fed_json.specs.Forms.{members_well_formed};
ghost use Rattle.fed_json.specs.Metadata.{IsMetadata};
ghost use Rattle.fed_json.specs.Trees.{find as value_at};
ghost use Rattle.chain_limits.specs.Reading.{HoldsUtf8};
ghost use Rattle.entity_statement.specs.Claims.{no_metadata, mark_utf8 as is_mark_utf8, issuers_utf8 as are_issuers_utf8};
ghost use Rattle.entity_statement.specs.Forms.{all_differ};
ghost use Rattle.entity_statement.specs.Told.{told_common, told_further, told_marks, told_rules, told_validity};
ghost use Rattle.entity_statement.specs.Table.{Gives, GivesBy, common_in, further_in, mark_claims_in, parties_in, rules_in, validity_in};

use crate::claims::{
    check_critical, check_metadata, check_policy_crit, constraints_in, hints_in, identifier_at,
    keys_in, mark_issuers_in, mark_owners_in, marks_in, moment_at, policy_in,
};
use crate::fault::StatementFault;
use crate::marks::{Issuers, MarkEntry, Owner};
use crate::statement::Statement;
use chain_limits::Constraints;
use entity_id::EntityId;
use fed_base::{Duplicate, Memory, Seq};
use fed_json::Member;
use jwk_set::JwkSet;
use policy_merge::Policy;
use std::alloc::Global;

/// Who says it, and of whom (section 3.1.1).
#[derive(Drop)]
pub(crate) struct Parties {
    pub(crate) iss: EntityId,
    pub(crate) sub: EntityId,
}

/// When it holds, and the keys of its subject (section 3.1.1).
#[derive(Drop)]
pub(crate) struct Validity {
    pub(crate) iat: u64,
    pub(crate) exp: u64,
    pub(crate) jwks: JwkSet,
}

/// The claims that every statement has (section 3.1.1).
#[derive(Drop)]
pub(crate) struct Common {
    pub(crate) iss: EntityId,
    pub(crate) sub: EntityId,
    pub(crate) iat: u64,
    pub(crate) exp: u64,
    pub(crate) jwks: JwkSet,
}

/// What a superior rules for its subordinate (section 3.1.3).
#[derive(Drop)]
pub(crate) struct Rules {
    pub(crate) policy: Policy,
    pub(crate) constraints: Constraints,
}

/// What a configuration says of trust marks (section 3.1.2).
#[derive(Drop)]
pub(crate) struct Marks {
    pub(crate) marks: Seq<MarkEntry>,
    pub(crate) issuers: Seq<Issuers>,
    pub(crate) owners: Seq<Owner>,
}

/// The claims beside those that every statement has; its metadata stays in its place among the members.
#[derive(Drop)]
pub(crate) struct Further {
    pub(crate) hints: Seq<EntityId>,
    pub(crate) rules: Rules,
    pub(crate) marks: Marks,
}

#[tactic(auto, using(crate::proofs::CommonParts::common_by_parts))]
pub(crate) fn read_common(alloc: Global, claims: &[Member]) -> Result<Common, StatementFault>
    requires { IsTrue (members_well_formed claims.now) }
    ensures claims { GivesBy told_common result (common_in claims.now) }
    ensures issued { IfOk result (λ common. common.iat < moment_limit) }
    ensures ends { IfOk result (λ common. common.exp < moment_limit) }
{
    check_critical(alloc, claims)?;
    let parties = read_parties(alloc, claims)?;
    match read_validity(alloc, claims) {
        Ok(validity) => Ok(Common {
            iss: parties.iss,
            sub: parties.sub,
            iat: validity.iat,
            exp: validity.exp,
            jwks: validity.jwks,
        }),
        Err(fault) => {
            drop(parties);
            Err(fault)
        },
    }
}

#[tactic(auto, unfolding(crate::specs::Table::parties_in))]
fn read_parties(alloc: Global, claims: &[Member]) -> Result<Parties, StatementFault>
    ensures { Gives result (parties_in claims.now) }
{
    let iss = identifier_at(alloc, claims, b"iss")?;
    let sub = identifier_at(alloc, claims, b"sub")?;
    Ok(Parties { iss, sub })
}

#[tactic(auto, unfolding(crate::specs::Table::validity_in))]
fn read_validity(alloc: Global, claims: &[Member]) -> Result<Validity, StatementFault>
    requires { IsTrue (members_well_formed claims.now) }
    ensures claims { GivesBy told_validity result (validity_in claims.now) }
    ensures issued { IfOk result (λ validity. validity.iat < moment_limit) }
    ensures ends { IfOk result (λ validity. validity.exp < moment_limit) }
{
    let iat = moment_at(alloc, claims, b"iat")?;
    let exp = moment_at(alloc, claims, b"exp")?;
    let jwks = keys_in(alloc, claims)?;
    Ok(Validity { iat, exp, jwks })
}

#[tactic(auto, unfolding(crate::specs::Table::rules_in))]
pub(crate) fn read_rules(
    alloc: Global,
    claims: &[Member],
    own: bool,
) -> Result<Rules, StatementFault>
    requires { IsTrue (members_well_formed claims.now) }
    ensures claims { GivesBy told_rules result (rules_in own claims.now) }
    ensures names { IfOk result (λ rules. HoldsUtf8 rules.constraints) }
{
    let policy = policy_in(alloc, claims, own)?;
    check_policy_crit(alloc, claims, own)?;
    let constraints = constraints_in(alloc, claims, own)?;
    Ok(Rules {
        policy,
        constraints,
    })
}

#[tactic(auto, unfolding(crate::specs::Table::mark_claims_in))]
pub(crate) fn read_marks(
    alloc: Global,
    claims: &[Member],
    own: bool,
) -> Result<Marks, StatementFault>
    requires { IsTrue (members_well_formed claims.now) }
    ensures claims { GivesBy told_marks result (mark_claims_in own claims.now) }
    ensures marks_utf8 { IfOk result (λ said. IsTrue (list_all is_mark_utf8 said.marks)) }
    ensures issuers_utf8 { IfOk result (λ said. IsTrue (list_all are_issuers_utf8 said.issuers)) }
    ensures owners_utf8 { IfOk result (λ said. IsTrue (list_all (λ o. is_utf8 o.mark_type) said.owners)) }
{
    let marks = marks_in(alloc, claims, own)?;
    let issuers = mark_issuers_in(alloc, claims, own)?;
    let owners = mark_owners_in(alloc, claims, own)?;
    Ok(Marks {
        marks,
        issuers,
        owners,
    })
}

#[tactic(auto, unfolding(crate::specs::Table::further_in))]
pub(crate) fn read_further(
    alloc: Global,
    claims: &[Member],
    own: bool,
) -> Result<Further, StatementFault>
    requires { IsTrue (members_well_formed claims.now) }
    ensures claims { GivesBy (told_further claims.now) result (further_in own claims.now) }
    ensures once { IfOk result (λ further. IsTrue (all_differ further.hints)) }
    ensures parameters { IfOk result (λ _. IsMetadata (unwrap_or (value_at (codes "metadata") claims.now) no_metadata)) }
    ensures names { IfOk result (λ further. HoldsUtf8 further.rules.constraints) }
    ensures marks_utf8 { IfOk result (λ further. IsTrue (list_all is_mark_utf8 further.marks.marks)) }
    ensures issuers_utf8 { IfOk result (λ further. IsTrue (list_all are_issuers_utf8 further.marks.issuers)) }
    ensures owners_utf8 { IfOk result (λ further. IsTrue (list_all (λ o. is_utf8 o.mark_type) further.marks.owners)) }
{
    let hints = hints_in(alloc, claims, own)?;
    check_metadata(alloc, claims)?;
    let rules = read_rules(alloc, claims, own)?;
    let marks = read_marks(alloc, claims, own)?;
    Ok(Further {
        hints,
        rules,
        marks,
    })
}

pub(crate) fn copy_common(alloc: Global, statement: &Statement) -> Result<Common, Memory>
    ensures iss { IfOk result (λ copy. copy.iss ≡ statement.now.iss) }
    ensures sub { IfOk result (λ copy. copy.sub ≡ statement.now.sub) }
    ensures iat { IfOk result (λ copy. copy.iat ≡ statement.now.iat) }
    ensures exp { IfOk result (λ copy. copy.exp ≡ statement.now.exp) }
    ensures jwks { IfOk result (λ copy. copy.jwks ≡ statement.now.jwks) }
{
    let jwks = statement.jwks.copy(alloc)?;
    let iss = statement.iss.copy(alloc)?;
    let sub = statement.sub.copy(alloc)?;
    Ok(Common {
        iss,
        sub,
        iat: statement.iat,
        exp: statement.exp,
        jwks,
    })
}

pub(crate) fn copy_further(alloc: Global, statement: &Statement) -> Result<Further, Memory>
    ensures hints { IfOk result (λ copy. copy.hints ≡ statement.now.hints) }
    ensures policy { IfOk result (λ copy. copy.rules.policy ≡ statement.now.policy) }
    ensures constraints { IfOk result (λ copy. copy.rules.constraints ≡ statement.now.constraints) }
    ensures marks { IfOk result (λ copy. copy.marks.marks ≡ statement.now.marks) }
    ensures issuers { IfOk result (λ copy. copy.marks.issuers ≡ statement.now.issuers) }
    ensures owners { IfOk result (λ copy. copy.marks.owners ≡ statement.now.owners) }
{
    let hints = statement.hints.copy(alloc)?;
    let marks = copy_marks(alloc, statement)?;
    let rules = copy_rules(alloc, statement)?;
    Ok(Further {
        hints,
        rules,
        marks,
    })
}

fn copy_rules(alloc: Global, statement: &Statement) -> Result<Rules, Memory>
    ensures policy { IfOk result (λ copy. copy.policy ≡ statement.now.policy) }
    ensures constraints { IfOk result (λ copy. copy.constraints ≡ statement.now.constraints) }
{
    let policy = statement.policy.copy(alloc)?;
    let constraints = statement.constraints.copy(alloc)?;
    Ok(Rules {
        policy,
        constraints,
    })
}

fn copy_marks(alloc: Global, statement: &Statement) -> Result<Marks, Memory>
    ensures marks { IfOk result (λ copy. copy.marks ≡ statement.now.marks) }
    ensures issuers { IfOk result (λ copy. copy.issuers ≡ statement.now.issuers) }
    ensures owners { IfOk result (λ copy. copy.owners ≡ statement.now.owners) }
{
    let marks = statement.marks.copy(alloc)?;
    let issuers = statement.issuers.copy(alloc)?;
    let owners = statement.owners.copy(alloc)?;
    Ok(Marks {
        marks,
        issuers,
        owners,
    })
}
