// Replies that are sealed anew.

ghost use Rattle.std.specs.Prelude.{◌≡◌, ◌<◌, ◌^◌, codes, map, IfOk, IsTrue};
ghost use Rattle.std.specs.List.{filter, list_all};
ghost use Rattle.fed_json.specs.Forms.{IsWhole};
ghost use Rattle.fed_json.specs.Members.{number_member};
ghost use Rattle.sealed.specs.Sealing.{IsObject, IsSealedFor, IsSignedAs, sealed_text};
ghost use Rattle.fed_json.specs.Compact.{compact};
ghost use Rattle.entity_statement.specs.Claims.{mark_utf8};
ghost use Rattle.resolve_reply.specs.Replies.{ReadsBack, SaysReply, is_unmarked, reply_type, resealed_claims, with_end};

use crate::claims::add_marks;
use crate::metadata::members_of;
use crate::sealing::sealed_claims;
use crate::signer::Signer;
use entity_statement::MarkEntry;
use fed_base::{Memory, Seq, Text};
use fed_json::{Json, Member};
use std::alloc::Global;
use std::thread::Threads;

/// Claims of a reply, sealed anew.
#[derive(Drop)]
pub struct Resealed {
    /// What it claims.
    pub claims: Json,
    /// The claims, sealed, as compact text.
    pub text: Text,
}

/// The claims of a reply with this end, in seconds since 1970, and these marks in place of its own, signed by the signer's workers:
/// no claim of marks where there is none. It makes one signature.
pub fn reseal<R: Threads + Sync>(
    rt: &R,
    alloc: Global,
    signer: &Signer,
    claims: Json,
    exp: u64,
    marks: Seq<MarkEntry>,
) -> Result<Resealed, Memory>
    requires claims { SaysReply claims }
    requires marks { IsTrue (list_all mark_utf8 marks) }
    ensures claims { IfOk result (λ resealed. resealed.claims ≡ resealed_claims claims exp marks) }
    ensures text { IfOk result (λ resealed. resealed.text ≡ sealed_text signer.now.keys reply_type resealed.claims) }
    // A text of at most 262,144 bytes is sealed by each set that has the signer's key; whatever its length, it is signed under that key.
    ensures sealed { IfOk result (λ resealed. IsSealedFor signer.now.keys resealed.text) }
    ensures signed { IfOk result (λ resealed. IsSignedAs signer.now.keys reply_type (compact resealed.claims) resealed.text) }
    ensures reads { IfOk result (λ resealed. ReadsBack signer.now.keys resealed.claims resealed.text) }
{
    let claims = resealed_claims(alloc, claims, exp, marks)?;
    let text = sealed_claims(rt, alloc, signer, &claims)?;
    Ok(Resealed { claims, text })
}

// The claims with this end and these marks.
#[tactic(auto, unfolding(crate::specs::Replies::resealed_claims))]
fn resealed_claims(
    alloc: Global,
    claims: Json,
    exp: u64,
    marks: Seq<MarkEntry>,
) -> Result<Json, Memory>
    ensures tree { IfOk result (λ tree. tree ≡ resealed_claims claims exp marks) }
    ensures object { IfOk result IsObject }
    ensures whole { SaysReply claims → IsTrue (list_all mark_utf8 marks) → IfOk result IsWhole }
{
    let mut members = with_end(alloc, members_of(alloc, claims), exp)?;
    add_marks(alloc, &mut members, marks)?;
    Ok(Json::Object(members))
}

// The members but for the claim of the marks, with this end.
fn with_end(alloc: Global, members: Seq<Member>, exp: u64) -> Result<Seq<Member>, Memory>
    ensures members { IfOk result (λ kept. kept ≡ map (with_end exp) (filter is_unmarked members)) }
    ensures bounded { exp < 2 ^ 64 }
{
    let mut kept = Seq::new(alloc);
    for member in unmarked(members).into_vec() {
        kept.push(ending(alloc, member, exp)?)?;
    }
    Ok(kept)
}

// The members but for the claim of the marks.
fn unmarked(members: Seq<Member>) -> Seq<Member>
    ensures { result ≡ filter is_unmarked members }
{
    let mut members = members.into_vec();
    members.retain(|member| is_unmarked(member));
    Seq::from_vec(members)
}

fn is_unmarked(member: &Member) -> bool
    ensures { result ≡ is_unmarked member.now }
{
    member.name.as_slice() != b"trust_marks".as_slice()
}

// The member, where it is the claim `exp` with this end.
fn ending(alloc: Global, member: Member, exp: u64) -> Result<Member, Memory>
    ensures { IfOk result (λ ended. ended ≡ with_end exp member) }
{
    if member.name.as_slice() != b"exp".as_slice() {
        return Ok(member);
    }
    drop(member);
    end_member(alloc, exp)
}

// The claim `exp`.
fn end_member(alloc: Global, exp: u64) -> Result<Member, Memory>
    ensures { IfOk result (λ member. member ≡ number_member (codes "exp") exp) }
{
    let name = Text::of(alloc, b"exp")?;
    Ok(Member {
        name,
        value: Json::Int(exp as i128),
    })
}
