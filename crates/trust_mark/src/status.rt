// Answers on the status of a trust mark.

ghost use Rattle.std.specs.Prelude.{◌≡◌, ◌<◌, ◌^◌, ◌++◌, ◌∷◌, [], codes, IfOk, OnOk, Ok, Some};
ghost use Rattle.std.specs.Str.{IsUtf8};
ghost use Rattle.fed_base.specs.Moments.{moment_limit};
ghost use Rattle.fed_json.specs.Forms.{IsWhole};
ghost use Rattle.fed_json.specs.Members.{number_member, text_member};
ghost use Rattle.fed_json.specs.Reading.{tree_in};
ghost use Rattle.jws_form.specs.declared.compact.Compact.{Compact as Parts};
ghost use Rattle.trust_mark.specs.Claims.{Gives, status_answer_in, status_at, status_claims, status_of_tree, status_type_name};
ghost use Rattle.trust_mark.specs.Grammar.{IsStatusAnswer};
ghost use Rattle.trust_mark.specs.Statuses.{answer_of, status_of_word, status_tree, status_word};
ghost use Rattle.trust_mark.specs.declared.status.StatusAnswer.{StatusAnswer as Claimed};

use crate::both::both;
use crate::claims::{formed, identifier_at, moment_at, text_at};
use crate::fault::MarkFault;
use crate::payload::payload;
use entity_id::EntityId;
use fed_base::{Duplicate, Memory, Seq, Text};
use fed_json::{Json, Member, text_member};
use jws_form::Compact;
use std::alloc::Global;

/// The `typ` of the header of an answer on a mark's status (OpenID Federation 1.0 section 8.4.2).
pub const STATUS_TYPE: &[u8] = b"trust-mark-status-response+jwt";

/// What has become of a trust mark (section 8.4.2).
#[derive(Clone, Copy, Debug, PartialEq, Eq, Drop)]
pub enum MarkStatus {
    /// It is good.
    Active,
    /// It has ended.
    Expired,
    /// Its issuer has taken it back.
    Revoked,
    /// It isn't one of the issuer's.
    Invalid,
}

/// An issuer's answer on a trust mark (section 8.4.2).
#[derive(Drop)]
pub struct StatusAnswer {
    /// Who answers.
    pub iss: EntityId,
    /// When it was answered, in seconds since 1970, below 2^62.
    pub iat: u64,
    /// The mark's compact text, UTF-8.
    pub trust_mark: Text,
    /// What has become of it.
    pub status: MarkStatus,
}

impl MarkStatus {
    /// The word that the claim `status` is.
    pub fn word(self) -> &'static [u8]
        ensures { result.now ≡ status_word self }
    {
        match self {
            MarkStatus::Active => b"active",
            MarkStatus::Expired => b"expired",
            MarkStatus::Revoked => b"revoked",
            MarkStatus::Invalid => b"invalid",
        }
    }
}

// The status that the word means.
fn of_word(word: &[u8]) -> Option<MarkStatus>
    ensures { result ≡ status_of_word word.now }
{
    if word == MarkStatus::Active.word() {
        Some(MarkStatus::Active)
    } else if word == MarkStatus::Expired.word() {
        Some(MarkStatus::Expired)
    } else if word == MarkStatus::Revoked.word() {
        Some(MarkStatus::Revoked)
    } else if word == MarkStatus::Invalid.word() {
        Some(MarkStatus::Invalid)
    } else {
        None
    }
}

impl StatusAnswer {
    /// What a compact text claims as an answer on a mark's status, or its first fault, in the order of [`MarkFault`].
    /// Claims of other names are left unread.
    pub fn read(alloc: Global, compact: &Compact) -> Result<StatusAnswer, MarkFault>
        ensures exact { Gives result (status_claims compact.now) }
        ensures found { IfOk result (IsStatusAnswer compact.now) }
        ensures only { (answer : Claimed) → IsStatusAnswer compact.now answer → Gives result (Ok answer) }
    {
        answer_in_text(alloc, compact)
    }

    /// The claims as a tree, with its members in byte order. A text of the type whose payload is this tree reads as the
    /// answer.
    pub fn write(&self, alloc: Global) -> Result<Json, Memory>
        ensures tree { IfOk result (λ tree. tree ≡ status_tree self.now) }
        ensures whole { IfOk result (λ tree. IsUtf8 self.now.trust_mark → IsWhole tree) }
        ensures reads_back { IfOk result (λ tree. self.now.iat < moment_limit → (c : Parts)
            → c.typ ≡ Some status_type_name → tree_in c.payload ≡ Some tree → status_claims c ≡ Ok self.now) }
    {
        let iss = self.iss.text();
        let trust_mark = self.trust_mark.as_slice();
        answer_tree(alloc, iss, self.iat, trust_mark, self.status)
    }
}

// The tree of an answer that claims this.
fn answer_tree(
    alloc: Global,
    iss: &[u8],
    iat: u64,
    trust_mark: &[u8],
    status: MarkStatus,
) -> Result<Json, Memory>
    ensures tree { IfOk result (λ tree. tree ≡ status_tree (answer_of iss.now iat trust_mark.now status)) }
    ensures bounded { iat < 2 ^ 64 }
{
    let mut members = Seq::new(alloc);
    add_number(alloc, &mut members, b"iat", iat)?;
    add_texts(alloc, &mut members, iss, status.word(), trust_mark)?;
    Ok(Json::Object(members))
}

// Adds the claims that are texts.
fn add_texts(
    alloc: Global,
    members: &mut Seq<Member>,
    iss: &[u8],
    status: &[u8],
    trust_mark: &[u8],
) -> Result<(), Memory>
    ensures { OnOk result (members.new ≡ members.old ++ text_member (codes "iss") iss.now
        ∷ text_member (codes "status") status.now ∷ text_member (codes "trust_mark") trust_mark.now ∷ []) }
{
    add_text(alloc, members, b"iss", iss)?;
    add_text(alloc, members, b"status", status)?;
    add_text(alloc, members, b"trust_mark", trust_mark)
}

// Adds a member of that name that is a text.
fn add_text(
    alloc: Global,
    members: &mut Seq<Member>,
    name: &[u8],
    text: &[u8],
) -> Result<(), Memory>
    ensures { OnOk result (members.new ≡ members.old ++ text_member name.now text.now ∷ []) }
{
    members.push(text_member(alloc, name, text)?)
}

// Adds a member of that name that is a number.
fn add_number(
    alloc: Global,
    members: &mut Seq<Member>,
    name: &[u8],
    number: u64,
) -> Result<(), Memory>
    ensures { OnOk result (members.new ≡ members.old ++ number_member name.now number ∷ []) }
{
    let name = Text::of(alloc, name)?;
    let value = Json::Int(number as i128);
    members.push(Member { name, value })
}

// The answer in a text of its type.
#[tactic(auto, unfolding(crate::specs::Claims::status_claims))]
fn answer_in_text(alloc: Global, compact: &Compact) -> Result<StatusAnswer, MarkFault>
    ensures { Gives result (status_claims compact.now) }
{
    let claims = payload(alloc, compact, STATUS_TYPE)?;
    answer_of_claims(alloc, &claims)
}

// The answer that a tree claims.
#[tactic(auto, unfolding(crate::specs::Claims::status_of_tree))]
fn answer_of_claims(alloc: Global, claims: &Json) -> Result<StatusAnswer, MarkFault>
    ensures { Gives result (status_of_tree claims.now) }
{
    match claims {
        Json::Object(claims) => answer_in(alloc, claims.as_slice()),
        _ => Err(MarkFault::Tree),
    }
}

// The answer that claims say.
#[tactic(auto, unfolding(crate::specs::Claims::status_answer_in))]
fn answer_in(alloc: Global, claims: &[Member]) -> Result<StatusAnswer, MarkFault>
    ensures { Gives result (status_answer_in claims.now) }
{
    let iss = identifier_at(alloc, claims, b"iss")?;
    let (iss, iat) = both(iss, moment_at(alloc, claims, b"iat"))?;
    let (iss, trust_mark) = both(iss, text_at(alloc, claims, b"trust_mark"))?;
    let ((iss, trust_mark), status) = both((iss, trust_mark), status_in(alloc, claims))?;
    Ok(StatusAnswer {
        iss,
        iat,
        trust_mark,
        status,
    })
}

// The claim `status`.
#[tactic(auto, unfolding(crate::specs::Claims::status_at))]
fn status_in(alloc: Global, claims: &[Member]) -> Result<MarkStatus, MarkFault>
    ensures { Gives result (status_at claims.now) }
{
    let word = text_at(alloc, claims, b"status")?;
    formed(alloc, b"status", of_word(word.as_slice()))
}

impl Duplicate for StatusAnswer {
    fn copy(&self, alloc: Global) -> Result<Self, Memory> {
        let iss = self.iss.copy(alloc)?;
        let (iss, trust_mark) = both(iss, self.trust_mark.copy(alloc))?;
        Ok(StatusAnswer {
            iss,
            iat: self.iat,
            trust_mark,
            status: self.status,
        })
    }
}
