// What a text says as a reply.

ghost use Rattle.std.specs.Prelude.{◌≡◌, IfOk, codes};
ghost use Rattle.std.specs.Option.{option_copied};
ghost use Rattle.trust_mark.specs.Claims.{has_type};
ghost use Rattle.reply_check.specs.Readings.{IsReading, chain_at, claimed_in, claims_of, identifier_at, marks_at, metadata_at, moment_at, said_in, said_of};

use crate::claimed::Claimed;
use entity_id::EntityId;
use entity_statement::{MarkEntry, identifier, read_marks};
use fed_base::{Duplicate, MOMENT_LIMIT, Memory, Seq, Text};
use fed_json::{Json, Member, TreeFault, copied_texts, count_below, find, is_metadata, read_tree};
use jws_form::{Compact, FormFault, split_long};
use resolve_reply::{REPLY_TYPE, Said};
use std::alloc::Global;
use trust_mark::Signed;

/// The reply that the text is, with the parts of the text, and `None` where it is none. Its signature isn't looked at.
#[tactic(auto, unfolding(crate::specs::Readings::reply_of))]
pub(crate) fn read_reply(alloc: Global, text: &[u8]) -> Result<Option<Signed<Claimed>>, Memory>
    ensures { IfOk result (IsReading text.now) }
{
    match split_long(alloc, text) {
        Ok(compact) => match read_claims(alloc, &compact)? {
            Some(claims) => Ok(Some(Signed { compact, claims })),
            None => Ok(None),
        },
        Err(FormFault::Memory) => Err(Memory),
        Err(_) => Ok(None),
    }
}

// The claims of a compact text of a reply's type.
#[tactic(auto, unfolding(crate::specs::Readings::claims_of))]
fn read_claims(alloc: Global, compact: &Compact) -> Result<Option<Claimed>, Memory>
    ensures { IfOk result (λ claims. claims ≡ claims_of compact.now) }
{
    if !is_of_type(compact.typ.as_ref()) {
        return Ok(None);
    }
    match read_tree(alloc, compact.payload.as_slice()) {
        Ok(Json::Object(members)) => read_claimed(alloc, members.as_slice()),
        Ok(_) | Err(TreeFault::Syntax) => Ok(None),
        Err(TreeFault::Memory) => Err(Memory),
    }
}

fn is_of_type(typ: Option<&Text>) -> bool
    ensures { result ≡ has_type (codes "resolve-response+jwt") (option_copied typ.entry) }
{
    typ.is_some_and(|typ| typ.as_slice() == REPLY_TYPE)
}

// Who says what, of the members of the payload.
#[tactic(auto, unfolding(crate::specs::Readings::claimed_in))]
fn read_claimed(alloc: Global, members: &[Member]) -> Result<Option<Claimed>, Memory>
    ensures { IfOk result (λ claims. claims ≡ claimed_in members.now) }
{
    let Some(iss) = identifier_at(alloc, members, b"iss")? else {
        return Ok(None);
    };
    match read_said(alloc, members)? {
        Some(said) => Ok(Some(Claimed { iss, said })),
        None => Ok(None),
    }
}

// What is said of the entity.
#[tactic(auto, unfolding(crate::specs::Readings::said_in))]
fn read_said(alloc: Global, members: &[Member]) -> Result<Option<Said>, Memory>
    ensures { IfOk result (λ said. said ≡ said_in members.now) }
{
    let Some(iat) = moment_at(members, b"iat") else {
        return Ok(None);
    };
    let Some(exp) = moment_at(members, b"exp") else {
        return Ok(None);
    };
    match identifier_at(alloc, members, b"sub")? {
        Some(sub) => said_of(alloc, sub, iat, exp, members),
        None => Ok(None),
    }
}

#[tactic(auto, unfolding(crate::specs::Readings::said_of))]
fn said_of(
    alloc: Global,
    sub: EntityId,
    iat: u64,
    exp: u64,
    members: &[Member],
) -> Result<Option<Said>, Memory>
    ensures { IfOk result (λ said. said ≡ said_of sub iat exp members.now) }
{
    let Some(metadata) = metadata_in(members) else {
        return Ok(None);
    };
    let Some(chain) = chain_in(alloc, members)? else {
        return Ok(None);
    };
    let Some(marks) = marks_at(alloc, members)? else {
        return Ok(None);
    };
    Ok(Some(Said {
        sub,
        iat,
        exp,
        metadata: metadata.copy(alloc)?,
        chain,
        marks,
    }))
}

// The identifier under this name.
#[tactic(auto, unfolding(crate::specs::Readings::identifier_at))]
fn identifier_at(alloc: Global, members: &[Member], name: &[u8]) -> Result<Option<EntityId>, Memory>
    ensures { IfOk result (λ id. id ≡ identifier_at name.now members.now) }
{
    match find(members, name) {
        Some(tree) => identifier(alloc, tree),
        None => Ok(None),
    }
}

// The moment under this name.
#[tactic(auto, unfolding(crate::specs::Readings::moment_at, entity_statement::specs::Forms::moment))]
fn moment_at(members: &[Member], name: &[u8]) -> Option<u64>
    ensures { result ≡ moment_at name.now members.now }
{
    match find(members, name) {
        Some(tree) => count_below(tree, MOMENT_LIMIT),
        None => None,
    }
}

// The metadata.
#[tactic(auto, unfolding(crate::specs::Readings::metadata_at, entity_statement::specs::Forms::metadata_of))]
fn metadata_in(members: &[Member]) -> Option<&Json>
    ensures { option_copied result ≡ metadata_at members.now }
{
    match find(members, b"metadata") {
        Some(tree) if is_metadata(tree) => Some(tree),
        _ => None,
    }
}

// The texts of the chain.
#[tactic(auto, unfolding(crate::specs::Readings::chain_at))]
fn chain_in(alloc: Global, members: &[Member]) -> Result<Option<Seq<Text>>, Memory>
    ensures { IfOk result (λ chain. chain ≡ chain_at members.now) }
{
    match find(members, b"trust_chain") {
        Some(tree) => copied_texts(alloc, tree),
        None => Ok(None),
    }
}

// The marks, of which there are none where the claim is absent.
#[tactic(auto, unfolding(crate::specs::Readings::marks_at))]
fn marks_at(alloc: Global, members: &[Member]) -> Result<Option<Seq<MarkEntry>>, Memory>
    ensures { IfOk result (λ marks. marks ≡ marks_at members.now) }
{
    match find(members, b"trust_marks") {
        Some(tree) => read_marks(alloc, tree),
        None => Ok(Some(Seq::new(alloc))),
    }
}
