// The claims of a reply as a tree.

ghost use Rattle.std.specs.Prelude.{◌≡◌, ◌<◌, ◌^◌, ◌++◌, [], ◌∷◌, codes, map, IfOk, OnOk};
ghost use Rattle.fed_json.specs.declared.tree.Json.{Text as TextOf, List as ListOf};
ghost use Rattle.fed_json.specs.Forms.{IsWhole};
ghost use Rattle.fed_json.specs.Members.{number_member, text_member};
ghost use Rattle.fed_json.specs.Reading.{member_of};
ghost use Rattle.sealed.specs.Sealing.{IsObject};
ghost use Rattle.resolve_reply.specs.Replies.{IsWritable, SaysReply, mark_tree, marks_member, reply_claims};

use crate::said::Said;
use entity_id::EntityId;
use entity_statement::MarkEntry;
use fed_base::{Memory, Seq, Text};
use fed_json::{Json, Member, text_member};
use std::alloc::Global;

/// The claims of a reply (OpenID Federation 1.0 section 8.3.2), with their members in byte order. Trees and texts are moved
/// into it.
#[tactic(auto, unfolding(crate::specs::Replies::reply_claims))]
pub(crate) fn reply_claims(alloc: Global, iss: &EntityId, said: Said) -> Result<Json, Memory>
    ensures tree { IfOk result (λ tree. tree ≡ reply_claims iss.now said) }
    ensures object { IfOk result IsObject }
    ensures whole { IsWritable said → IfOk result IsWhole }
    ensures says { IsWritable said → IfOk result SaysReply }
{
    let mut members = times_and_issuer(alloc, said.exp, said.iat, iss.text())?;
    add(alloc, &mut members, b"metadata", said.metadata)?;
    members.push(text_member(alloc, b"sub", said.sub.text())?)?;
    let chain = text_list(alloc, said.chain)?;
    add(alloc, &mut members, b"trust_chain", chain)?;
    add_marks(alloc, &mut members, said.marks)?;
    Ok(Json::Object(members))
}

// Adds the claim of the marks, where there is one.
pub(crate) fn add_marks(
    alloc: Global,
    members: &mut Seq<Member>,
    marks: Seq<MarkEntry>,
) -> Result<(), Memory>
    ensures { OnOk result (members.new ≡ members.old ++ marks_member marks) }
{
    if marks.is_empty() {
        return Ok(());
    }
    let marks = mark_list(alloc, marks)?;
    add(alloc, members, b"trust_marks", marks)
}

// The claims `exp`, `iat` and `iss`.
fn times_and_issuer(alloc: Global, exp: u64, iat: u64, iss: &[u8]) -> Result<Seq<Member>, Memory>
    ensures members { IfOk result (λ members. members ≡ number_member (codes "exp") exp ∷ number_member (codes "iat") iat ∷ text_member (codes "iss") iss.now ∷ []) }
    ensures exp_bounded { exp < 2 ^ 64 }
    ensures iat_bounded { iat < 2 ^ 64 }
{
    let mut members = Seq::new(alloc);
    add(alloc, &mut members, b"exp", Json::Int(exp as i128))?;
    add(alloc, &mut members, b"iat", Json::Int(iat as i128))?;
    members.push(text_member(alloc, b"iss", iss)?)?;
    Ok(members)
}

// Adds a member.
fn add(alloc: Global, members: &mut Seq<Member>, name: &[u8], value: Json) -> Result<(), Memory>
    ensures { OnOk result (members.new ≡ members.old ++ member_of name.now value ∷ []) }
{
    let name = Text::of(alloc, name)?;
    members.push(Member { name, value })
}

// A list of texts.
fn text_list(alloc: Global, texts: Seq<Text>) -> Result<Json, Memory>
    ensures { IfOk result (λ tree. tree ≡ ListOf (map TextOf texts)) }
{
    let mut items = Seq::new(alloc);
    for text in texts.into_vec() {
        items.push(Json::Text(text))?;
    }
    Ok(Json::List(items))
}

// A list of marks.
fn mark_list(alloc: Global, marks: Seq<MarkEntry>) -> Result<Json, Memory>
    ensures { IfOk result (λ tree. tree ≡ ListOf (map mark_tree marks)) }
{
    let mut items = Seq::new(alloc);
    for mark in marks.into_vec() {
        items.push(entry(alloc, mark)?)?;
    }
    Ok(Json::List(items))
}

// A mark and its type.
fn entry(alloc: Global, mark: MarkEntry) -> Result<Json, Memory>
    ensures { IfOk result (λ tree. tree ≡ mark_tree mark) }
{
    let mut members = Seq::new(alloc);
    add(alloc, &mut members, b"trust_mark", Json::Text(mark.text))?;
    add(
        alloc,
        &mut members,
        b"trust_mark_type",
        Json::Text(mark.mark_type),
    )?;
    Ok(Json::Object(members))
}
