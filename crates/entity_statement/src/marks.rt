// What a configuration says of trust marks.

ghost use Rattle.std.specs.Prelude.{◌≡◌, IfOk, IsTrue, map, option_map};
ghost use Rattle.fed_json.specs.Forms.{IsWellFormed, members_well_formed};
ghost use Rattle.fed_json.specs.Trees.{each};
ghost use Rattle.entity_statement.specs.Claims.{told_owner};
ghost use Rattle.entity_statement.specs.Forms.{issuers_in, issuers_of, mark_of, marks_of, owner_in, owner_with, owners_of};

use crate::forms::identifier;
use entity_id::EntityId;
use fed_base::{Duplicate, Memory, Seq, Text};
use fed_json::{Json, Member, copied_texts, find, text_at};
use jwk_set::{JwkSet, SetFault};
use std::alloc::Global;

/// A trust mark of an entity, unread, and its type (OpenID Federation 1.0 section 7.1).
#[derive(Drop)]
pub struct MarkEntry {
    /// The type that the entry gives, UTF-8.
    pub mark_type: Text,
    /// The mark's compact text, UTF-8.
    pub text: Text,
}

/// Those who may issue marks of a type; any entity where the list is empty (section 3.1.2).
#[derive(Drop)]
pub struct Issuers {
    /// The type, UTF-8.
    pub mark_type: Text,
    /// The texts of the list, UTF-8; they need not identify entities.
    pub who: Seq<Text>,
}

/// The owner of a type of marks (section 3.1.2).
#[derive(Drop)]
pub struct Owner {
    /// The type, UTF-8.
    pub mark_type: Text,
    /// Who owns the type.
    pub sub: EntityId,
    /// The keys that sign the owner's delegations.
    pub jwks: JwkSet,
}

impl Duplicate for MarkEntry {
    fn copy(&self, alloc: Global) -> Result<Self, Memory> {
        let mark_type = self.mark_type.copy(alloc)?;
        let text = self.text.copy(alloc)?;
        Ok(MarkEntry { mark_type, text })
    }
}

impl Duplicate for Issuers {
    fn copy(&self, alloc: Global) -> Result<Self, Memory> {
        let mark_type = self.mark_type.copy(alloc)?;
        let who = self.who.copy(alloc)?;
        Ok(Issuers { mark_type, who })
    }
}

impl Duplicate for Owner {
    fn copy(&self, alloc: Global) -> Result<Self, Memory> {
        let mark_type = self.mark_type.copy(alloc)?;
        let sub = self.sub.copy(alloc)?;
        let jwks = self.jwks.copy(alloc)?;
        Ok(Owner {
            mark_type,
            sub,
            jwks,
        })
    }
}

/// The marks of a list of objects with the texts `trust_mark_type` and `trust_mark`.
#[tactic(auto, unfolding(crate::specs::Forms::marks_of))]
pub fn read_marks(alloc: Global, tree: &Json) -> Result<Option<Seq<MarkEntry>>, Memory>
    ensures { IfOk result (λ marks. marks ≡ marks_of tree.now) }
{
    match tree {
        Json::List(items) => each_mark(alloc, items.as_slice()),
        _ => Ok(None),
    }
}

fn each_mark(alloc: Global, items: &[Json]) -> Result<Option<Seq<MarkEntry>>, Memory>
    ensures { IfOk result (λ marks. marks ≡ each mark_of items.now) }
{
    let mut marks = Seq::new(alloc);
    for item in items {
        match mark(alloc, item)? {
            Some(mark) => marks.push(mark)?,
            None => return Ok(None),
        }
    }
    Ok(Some(marks))
}

#[tactic(auto, unfolding(crate::specs::Forms::mark_of))]
fn mark(alloc: Global, tree: &Json) -> Result<Option<MarkEntry>, Memory>
    ensures { IfOk result (λ mark. mark ≡ mark_of tree.now) }
{
    let Json::Object(members) = tree else {
        return Ok(None);
    };
    let members = members.as_slice();
    let (Some(mark_type), Some(text)) = (
        text_at(members, b"trust_mark_type"),
        text_at(members, b"trust_mark"),
    ) else {
        return Ok(None);
    };
    let mark_type = mark_type.copy(alloc)?;
    let text = text.copy(alloc)?;
    Ok(Some(MarkEntry { mark_type, text }))
}

/// The issuers of an object from type to a list of texts.
#[tactic(auto, unfolding(crate::specs::Forms::issuers_of))]
pub fn read_issuers(alloc: Global, tree: &Json) -> Result<Option<Seq<Issuers>>, Memory>
    ensures { IfOk result (λ issuers. issuers ≡ issuers_of tree.now) }
{
    match tree {
        Json::Object(members) => each_issuers(alloc, members.as_slice()),
        _ => Ok(None),
    }
}

fn each_issuers(alloc: Global, members: &[Member]) -> Result<Option<Seq<Issuers>>, Memory>
    ensures { IfOk result (λ issuers. issuers ≡ each issuers_in members.now) }
{
    let mut issuers = Seq::new(alloc);
    for member in members {
        match issuers_of_type(alloc, member)? {
            Some(of_type) => issuers.push(of_type)?,
            None => return Ok(None),
        }
    }
    Ok(Some(issuers))
}

#[tactic(auto, unfolding(crate::specs::Forms::issuers_in))]
fn issuers_of_type(alloc: Global, member: &Member) -> Result<Option<Issuers>, Memory>
    ensures { IfOk result (λ issuers. issuers ≡ issuers_in member.now) }
{
    let Some(who) = copied_texts(alloc, &member.value)? else {
        return Ok(None);
    };
    let mark_type = member.name.copy(alloc)?;
    Ok(Some(Issuers { mark_type, who }))
}

/// The owners of an object from type to an object with `sub` and `jwks`.
#[tactic(auto, unfolding(crate::specs::Forms::owners_of))]
pub fn read_owners(alloc: Global, tree: &Json) -> Result<Option<Seq<Owner>>, Memory>
    requires { IsWellFormed tree.now }
    ensures { IfOk result (λ owners. option_map (map told_owner) owners ≡ owners_of tree.now) }
{
    match tree {
        Json::Object(members) => each_owner(alloc, members.as_slice()),
        _ => Ok(None),
    }
}

fn each_owner(alloc: Global, members: &[Member]) -> Result<Option<Seq<Owner>>, Memory>
    requires { IsTrue (members_well_formed members.now) }
    ensures { IfOk result (λ owners. option_map (map told_owner) owners ≡ each owner_in members.now) }
{
    let mut owners = Seq::new(alloc);
    for member in members {
        match owner_of_type(alloc, member)? {
            Some(owner) => owners.push(owner)?,
            None => return Ok(None),
        }
    }
    Ok(Some(owners))
}

#[tactic(auto, unfolding(crate::specs::Forms::owner_in))]
fn owner_of_type(alloc: Global, member: &Member) -> Result<Option<Owner>, Memory>
    requires { IsWellFormed member.now.value }
    ensures { IfOk result (λ owner. option_map told_owner owner ≡ owner_in member.now) }
{
    match &member.value {
        Json::Object(claims) => owner_with(alloc, &member.name, claims.as_slice()),
        _ => Ok(None),
    }
}

fn owner_with(alloc: Global, mark_type: &Text, claims: &[Member]) -> Result<Option<Owner>, Memory>
    requires { IsTrue (members_well_formed claims.now) }
    ensures { IfOk result (λ owner. option_map told_owner owner ≡ owner_with mark_type.now claims.now) }
{
    let (Some(sub), Some(keys)) = (find(claims, b"sub"), find(claims, b"jwks")) else {
        return Ok(None);
    };
    let Some(sub) = identifier(alloc, sub)? else {
        return Ok(None);
    };
    match JwkSet::read(alloc, keys) {
        Ok(jwks) => {
            let mark_type = mark_type.copy(alloc)?;
            Ok(Some(Owner {
                mark_type,
                sub,
                jwks,
            }))
        },
        Err(fault) => {
            drop(sub);
            match fault {
                SetFault::Memory => Err(Memory),
                _ => Ok(None),
            }
        },
    }
}
