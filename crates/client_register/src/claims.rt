// The claims of a registration as a tree.

ghost use Rattle.std.specs.Prelude.{◌≡◌, ◌<◌, ◌^◌, ◌++◌, [], ◌∷◌, codes, map, IfOk, IsTrue, OnOk};
ghost use Rattle.std.specs.List.{list_all};
ghost use Rattle.std.specs.Str.{IsUtf8, is_utf8};
ghost use Rattle.fed_json.specs.declared.tree.Json.{Object, Text as TextOf, List as ListOf};
ghost use Rattle.fed_json.specs.Forms.{IsWhole};
ghost use Rattle.fed_json.specs.Members.{number_member, text_member};
ghost use Rattle.fed_json.specs.Reading.{member_of};
ghost use Rattle.sealed.specs.Sealing.{IsObject};
ghost use Rattle.client_register.specs.Registrations.{party_type, registration_claims};

use crate::registration::Registration;
use entity_id::EntityId;
use fed_base::{Memory, Seq, Text};
use fed_json::{Json, Member, text_member};
use std::alloc::Global;

/// The entity type of a relying party (OpenID Federation 1.0 section 5.1.2).
pub(crate) const PARTY_TYPE: &[u8] = b"openid_relying_party";

/// The claims of a registration, with their members in byte order. Trees and texts are moved into it.
pub(crate) fn registration_claims(
    alloc: Global,
    iss: &EntityId,
    anchor: &EntityId,
    registration: Registration,
) -> Result<Json, Memory>
    ensures tree { IfOk result (λ tree. tree ≡ registration_claims iss.now anchor.now registration) }
    ensures object { IfOk result IsObject }
    ensures whole { IsWhole registration.party → IsTrue (list_all is_utf8 registration.chain) → IfOk result IsWhole }
{
    let Registration {
        sub,
        iat,
        exp,
        party,
        chain,
    } = registration;
    let mut members = made_members(alloc, iss, &sub, iat, exp)?;
    let metadata = one_type(alloc, party)?;
    add(alloc, &mut members, b"metadata", metadata)?;
    add_chain(alloc, &mut members, &sub, anchor, chain)?;
    Ok(Json::Object(members))
}

// Whom the registration is of, until when it lasts, and when and by whom it is made.
fn made_members(
    alloc: Global,
    iss: &EntityId,
    sub: &EntityId,
    iat: u64,
    exp: u64,
) -> Result<Seq<Member>, Memory>
    ensures members { IfOk result (λ members. members ≡ text_member (codes "client_id") sub.now
        ∷ number_member (codes "exp") exp ∷ number_member (codes "iat") iat ∷ text_member (codes "iss") iss.now ∷ []) }
    ensures moments { IfOk result (λ _. (iat < 2 ^ 64) × (exp < 2 ^ 64)) }
    ensures utf8 { IfOk result (λ _. IsUtf8 iss.now × IsUtf8 sub.now) }
{
    let mut members = Seq::new(alloc);
    members.push(text_member(alloc, b"client_id", sub.text())?)?;
    add(alloc, &mut members, b"exp", Json::Int(exp as i128))?;
    add(alloc, &mut members, b"iat", Json::Int(iat as i128))?;
    members.push(text_member(alloc, b"iss", iss.text())?)?;
    Ok(members)
}

// Adds the relying party, the trust anchor and the chain between them.
fn add_chain(
    alloc: Global,
    members: &mut Seq<Member>,
    sub: &EntityId,
    anchor: &EntityId,
    chain: Seq<Text>,
) -> Result<(), Memory>
    ensures members { OnOk result (members.new ≡ members.old ++ (text_member (codes "sub") sub.now
        ∷ text_member (codes "trust_anchor") anchor.now ∷ member_of (codes "trust_chain") (ListOf (map TextOf chain)) ∷ [])) }
    ensures utf8 { OnOk result (IsUtf8 anchor.now) }
{
    members.push(text_member(alloc, b"sub", sub.text())?)?;
    members.push(text_member(alloc, b"trust_anchor", anchor.text())?)?;
    let chain = text_list(alloc, chain)?;
    add(alloc, members, b"trust_chain", chain)
}

// Adds a member.
fn add(alloc: Global, members: &mut Seq<Member>, name: &[u8], value: Json) -> Result<(), Memory>
    ensures { OnOk result (members.new ≡ members.old ++ member_of name.now value ∷ []) }
{
    let name = Text::of(alloc, name)?;
    members.push(Member { name, value })
}

// Metadata of the one type of a relying party.
fn one_type(alloc: Global, party: Json) -> Result<Json, Memory>
    ensures { IfOk result (λ tree. tree ≡ Object (member_of party_type party ∷ [])) }
{
    let mut members = Seq::new(alloc);
    add(alloc, &mut members, PARTY_TYPE, party)?;
    Ok(Json::Object(members))
}

// A list of texts.
fn text_list(alloc: Global, texts: Seq<Text>) -> Result<Json, Memory>
    ensures { IfOk result (λ tree. tree ≡ ListOf (map TextOf texts)) }
{
    let mut items = Seq::new(alloc);
    for text in texts.into_vec() {
        items.push(Json::Text(text))?;
    }
    Ok(Json::List(items))
}
