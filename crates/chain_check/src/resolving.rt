// Limits, policies, and what a chain resolves to.

ghost use Rattle.std.specs.Prelude.{◌≡◌, ◌<◌, None, Ok, IfOk, drop, fold, length, map, min};
ghost use Rattle.fed_json.specs.Metadata.{IsMetadata};
ghost use Rattle.policy_merge.specs.Combining.{conflict_in};
ghost use Rattle.policy_merge.specs.Merging.{merging};
ghost use Rattle.policy_apply.specs.Applying.{applying};
ghost use Rattle.chain_limits.specs.Limits.{IsVerdict};
ghost use Rattle.entity_statement.specs.Told.{told};
ghost use Rattle.chain_limits.specs.declared.verdict.LimitVerdict.TheVariants.{Met};
ghost use Rattle.chain_check.specs.Metadata.{limited_places, place_of};
ghost use Rattle.chain_check.specs.Policies.{merged_from};
ghost use Rattle.chain_check.specs.Validity.{IsWithin, ResolvesTo};
ghost use Rattle.chain_check.specs.Verdicts.{HasUtf8Names, IsResolved};
ghost use Rattle.chain_check.specs.Resolving.{FailsToResolve, IsConflict, IsConflictAt, IsLimit, IsRefusal};
ghost use Rattle.chain_check.specs.Reading.{claims_in};
ghost use Rattle.chain_check.specs.Stages.{Passes};

use crate::metadata::allowed_metadata;
use crate::reason::Reason;
use crate::stop::Stop;
use crate::verdict::Resolved;
use chain_limits::{LimitVerdict, Place, limits_met};
use entity_statement::{SignedStatement, Statement};
use fed_base::{Duplicate, Memory, Seq, Text};
use fed_json::Json;
use policy_apply::{ApplyFault, apply};
use policy_merge::{Policy, PolicyFault};
use std::alloc::Global;

/// What the statements of a chain resolve to, within the limits of its superiors and under their policies.
pub(crate) fn resolve(alloc: Global, entries: &[SignedStatement]) -> Result<Resolved, Stop>
    requires { 0 < length entries.now }
    ensures resolved { Passes result
        (λ resolved. IsWithin (claims_in entries.now) × IsResolved (claims_in entries.now) resolved)
        (FailsToResolve (claims_in entries.now)) }
    ensures written { Passes result (λ resolved. IsMetadata resolved.metadata) (λ _ reason. HasUtf8Names reason) }
{
    let metadata = metadata_of(alloc, entries)?;
    Ok(Resolved {
        leaf: entries[0].statement.sub.copy(alloc)?,
        exp: least_exp(entries[0].statement.exp, entries),
        metadata,
    })
}

// The leaf's metadata within the limits and under the policies.
fn metadata_of(alloc: Global, entries: &[SignedStatement]) -> Result<Json, Stop>
    requires { 0 < length entries.now }
    ensures resolved { Passes result
        (λ metadata. IsWithin (claims_in entries.now) × ResolvesTo (claims_in entries.now) metadata)
        (FailsToResolve (claims_in entries.now)) }
    ensures written { Passes result IsMetadata (λ _ reason. HasUtf8Names reason) }
{
    let places = limited_places(alloc, &entries[..entries.len() - 1])?;
    check_limits(&places)?;
    metadata_within(alloc, entries, &places)
}

// The same where the limits are met.
fn metadata_within(
    alloc: Global,
    entries: &[SignedStatement],
    places: &Seq<Place>,
) -> Result<Json, Stop>
    requires some { 0 < length entries.now }
    requires places { places.now ≡ limited_places (claims_in entries.now) }
    requires within { IsWithin (claims_in entries.now) }
    ensures resolved { Passes result
        (λ metadata. IsWithin (claims_in entries.now) × ResolvesTo (claims_in entries.now) metadata)
        (FailsToResolve (claims_in entries.now)) }
    ensures written { Passes result IsMetadata (λ _ reason. HasUtf8Names reason) }
{
    let policy = merge_policies(alloc, &entries[..entries.len() - 1])?;
    let metadata = allowed_metadata(alloc, entries, places)?;
    let metadata = apply_policy(alloc, &policy, &metadata)?;
    Ok(metadata)
}

fn least_exp(first: u64, entries: &[SignedStatement]) -> u64
    ensures { result ≡ fold (λ exp s. min exp s.exp) first (claims_in entries.now) }
{
    entries
        .iter()
        .fold(first, |exp, entry| exp.min(entry.statement.exp))
}

// What limits speak of, of a statement.
fn place_of(alloc: Global, statement: &Statement) -> Result<Place, Memory>
    ensures { IfOk result (λ place. place ≡ place_of (told statement.now)) }
{
    let host = Text::of(alloc, statement.sub.host())?;
    let limits = statement.constraints.copy(alloc)?;
    Ok(Place { host, limits })
}

// What limits speak of, of each statement below the trust anchor's configuration.
fn limited_places(alloc: Global, below: &[SignedStatement]) -> Result<Seq<Place>, Memory>
    ensures { IfOk result (λ places. places ≡ map place_of (claims_in below.now)) }
{
    let mut places = Seq::new(alloc);
    for entry in below {
        places.push(place_of(alloc, &entry.statement)?)?;
    }
    Ok(places)
}

fn check_limits(places: &Seq<Place>) -> Result<(), Stop>
    ensures { Passes result (λ _. IsVerdict places.now Met) (IsLimit places.now) }
{
    match limits_met(places) {
        LimitVerdict::Met => Ok(()),
        LimitVerdict::PathLength(place) => Err(Stop::Refused {
            place,
            reason: Reason::PathLength,
        }),
        LimitVerdict::Name(place) => Err(Stop::Refused {
            place,
            reason: Reason::Name,
        }),
    }
}

// The policies of the subordinate statements, merged from the trust anchor's down. The first of the statements is the
// leaf's configuration, which has none.
fn merge_policies(alloc: Global, below: &[SignedStatement]) -> Result<Policy, Stop>
    ensures merged { Passes result
        (λ policy. merged_from 1 (map (λ s. s.policy) (drop 1 (claims_in below.now))) ≡ Ok policy)
        (IsConflictAt (merged_from 1 (map (λ s. s.policy) (drop 1 (claims_in below.now))))) }
    ensures combines { IfOk result (λ policy. conflict_in policy ≡ None) }
    ensures utf8 { Passes result (λ _. Unit {0}) (λ _ reason. HasUtf8Names reason) }
{
    let mut policy = Policy::empty(alloc);
    let mut place = below.len();
    while place > 1 {
        place -= 1;
        policy = merge_at(alloc, place as u64, &policy, &below[place].statement.policy)?;
    }
    Ok(policy)
}

fn merge_at(alloc: Global, at: u64, upper: &Policy, lower: &Policy) -> Result<Policy, Stop>
    ensures merged { Passes result (λ policy. merging upper.now lower.now ≡ Ok policy)
        (λ place reason. (place ≡ at) × IsConflict (merging upper.now lower.now) reason) }
    ensures combines { IfOk result (λ policy. conflict_in policy ≡ None) }
    ensures utf8 { Passes result (λ _. Unit {0}) (λ _ reason. HasUtf8Names reason) }
{
    match upper.merge(alloc, lower) {
        Ok(policy) => Ok(policy),
        Err(PolicyFault::Memory) => Err(Stop::Memory),
        Err(
            PolicyFault::Conflict {
                entity_type,
                parameter,
                first,
                second,
            },
        ) => Err(Stop::Refused {
            place: at,
            reason: Reason::Conflict {
                entity_type,
                parameter,
                first,
                second,
            },
        }),
    }
}

fn apply_policy(alloc: Global, policy: &Policy, metadata: &Json) -> Result<Json, Stop>
    requires metadata { IsMetadata metadata.now }
    requires combines { conflict_in policy.now ≡ None }
    ensures applied { Passes result (λ tree. applying policy.now metadata.now ≡ Ok tree)
        (IsRefusal (applying policy.now metadata.now)) }
    ensures written { Passes result IsMetadata (λ _ reason. HasUtf8Names reason) }
{
    match apply(alloc, policy, metadata) {
        Ok(tree) => Ok(tree),
        Err(ApplyFault::Memory) => Err(Stop::Memory),
        Err(
            ApplyFault::Refused {
                entity_type,
                parameter,
                operator,
            },
        ) => Err(Stop::Refused {
            place: 0,
            reason: Reason::Policy {
                entity_type,
                parameter,
                operator,
            },
        }),
    }
}
