// Claims that are stated as they are configured.

ghost use Rattle.std.specs.Prelude.{◌≡◌, IfOk, IsTrue, OnOk, is_some};
ghost use Rattle.std.specs.List.{list_all};
ghost use Rattle.fed_json.specs.Forms.{IsWellFormed, members_well_formed};
ghost use Rattle.chain_limits.specs.Reading.{constraints_of};
ghost use Rattle.entity_statement.specs.Table.{is_operator};
ghost use Rattle.node_config.specs.Answers.{GivesBy, Reads, ReadsBy};
ghost use Rattle.node_config.specs.Stated.{IsStated, MayState};
ghost use Rattle.policy_merge.specs.Shapes.{policy_shape};
ghost use Rattle.node_config.specs.Configurations.{own_claim as claim_or_name};
ghost use Rattle.node_config.specs.Forms.{are_operators, claim_in as claim_at, claim_name, claim_of, has_form};

use crate::fault::{ConfigFault, FormFault};
use crate::members::member;
use chain_limits::{Constraints, LimitShape};
use entity_statement::{is_operator, read_hints, read_issuers, read_marks, read_owners};
use fed_base::{Duplicate, Memory, Text};
use fed_json::{Json, Member, copied_texts, find, is_metadata, is_whole};
use policy_merge::{Policy, PolicyShape};
use std::alloc::Global;

/// A claim of a statement that a configuration may set (OpenID Federation 1.0 sections 3.1.1 to 3.1.3).
#[derive(Clone, Copy, Drop)]
pub(crate) enum Claim {
    Metadata,
    AuthorityHints,
    TrustMarks,
    TrustMarkIssuers,
    TrustMarkOwners,
    MetadataPolicy,
    MetadataPolicyCrit,
    Constraints,
}

impl Claim {
    /// The claim's name.
    #[tactic(auto, unfolding(crate::specs::Forms::claim_name))]
    pub(crate) fn name(self) -> &'static [u8]
        ensures { result.now ≡ claim_name self }
    {
        match self {
            Claim::Metadata => b"metadata",
            Claim::AuthorityHints => b"authority_hints",
            Claim::TrustMarks => b"trust_marks",
            Claim::TrustMarkIssuers => b"trust_mark_issuers",
            Claim::TrustMarkOwners => b"trust_mark_owners",
            Claim::MetadataPolicy => b"metadata_policy",
            Claim::MetadataPolicyCrit => b"metadata_policy_crit",
            Claim::Constraints => b"constraints",
        }
    }
}

/// Puts a claim of the node's own configuration in its place, or tells its name where it isn't of its form.
pub(crate) fn own_claim(
    alloc: Global,
    members: &[Member],
    claim: Claim,
    place: &mut Option<Json>,
) -> Result<(), ConfigFault>
    requires { IsTrue (members_well_formed members.now) }
    ensures claim { GivesBy (λ _. place.new) result (claim_or_name claim members.now) }
    ensures stated { OnOk result (MayState claim place.new) }
{
    member(alloc, claim.name(), claim_in(alloc, members, claim, place))
}

/// Puts a claim, which may be absent, in its place.
pub(crate) fn claim_in(
    alloc: Global,
    members: &[Member],
    claim: Claim,
    place: &mut Option<Json>,
) -> Result<(), FormFault>
    requires { IsTrue (members_well_formed members.now) }
    ensures claim { ReadsBy (λ _. place.new) result (claim_at claim members.now) }
    ensures stated { OnOk result (MayState claim place.new) }
{
    *place = match find(members, claim.name()) {
        Some(tree) => Some(claim_of(alloc, tree, claim)?),
        None => None,
    };
    Ok(())
}

// The claim as it is configured.
#[tactic(auto, unfolding(crate::specs::Forms::claim_of))]
fn claim_of(alloc: Global, tree: &Json, claim: Claim) -> Result<Json, FormFault>
    requires { IsWellFormed tree.now }
    ensures claim { Reads result (claim_of claim tree.now) }
    ensures stated { IfOk result (IsStated claim) }
{
    if has_form(alloc, tree, claim)? && is_whole(tree) {
        Ok(tree.copy(alloc)?)
    } else {
        Err(FormFault::Shape)
    }
}

// Whether the value has the claim's form.
#[tactic(auto, unfolding(crate::specs::Forms::has_form))]
fn has_form(alloc: Global, tree: &Json, claim: Claim) -> Result<bool, Memory>
    requires { IsWellFormed tree.now }
    ensures { IfOk result (λ has. has ≡ has_form claim tree.now) }
{
    match claim {
        Claim::Metadata => Ok(is_metadata(tree)),
        Claim::AuthorityHints => Ok(read_hints(alloc, tree)?.is_some()),
        Claim::TrustMarks => Ok(read_marks(alloc, tree)?.is_some()),
        Claim::TrustMarkIssuers => Ok(read_issuers(alloc, tree)?.is_some()),
        Claim::TrustMarkOwners => Ok(read_owners(alloc, tree)?.is_some()),
        Claim::MetadataPolicy => is_policy(alloc, tree),
        Claim::MetadataPolicyCrit => are_operators(alloc, tree),
        Claim::Constraints => are_constraints(alloc, tree),
    }
}

// Whether the value is a policy (section 6.1).
fn is_policy(alloc: Global, tree: &Json) -> Result<bool, Memory>
    requires { IsWellFormed tree.now }
    ensures { IfOk result (λ is. is ≡ is_some (policy_shape tree.now)) }
{
    match Policy::read(alloc, tree) {
        Ok(_) => Ok(true),
        Err(PolicyShape::Shape) => Ok(false),
        Err(PolicyShape::Memory) => Err(Memory),
    }
}

// Whether the value is a list of operators of policies (section 3.1.3).
fn are_operators(alloc: Global, tree: &Json) -> Result<bool, Memory>
    ensures { IfOk result (λ are. are ≡ are_operators tree.now) }
{
    match copied_texts(alloc, tree)? {
        Some(names) => Ok(all_operators(names.as_slice())),
        None => Ok(false),
    }
}

fn all_operators(names: &[Text]) -> bool
    ensures { result ≡ list_all is_operator names.now }
{
    names.iter().all(|name| is_operator(name.as_slice()))
}

// Whether the value is a set of constraints (section 6.2).
fn are_constraints(alloc: Global, tree: &Json) -> Result<bool, Memory>
    ensures { IfOk result (λ are. are ≡ is_some (constraints_of tree.now)) }
{
    match Constraints::read(alloc, tree) {
        Ok(_) => Ok(true),
        Err(LimitShape::Shape) => Ok(false),
        Err(LimitShape::Memory) => Err(Memory),
    }
}
