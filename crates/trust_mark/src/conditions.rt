// What a trust anchor and a moment ask of the claims of a mark.

ghost use Rattle.std.specs.Prelude.{◌≡◌, List, bytes_eq, option_map};
ghost use Rattle.std.specs.List.{list_any};
ghost use Rattle.std.specs.Option.{option_copied};
ghost use Rattle.jwk_set.specs.declared.jwk.Jwk.{Jwk};
ghost use Rattle.entity_statement.specs.Claims.{told_owner};
ghost use Rattle.entity_statement.specs.Told.{told};
ghost use Rattle.trust_mark.specs.Conditions.{admits, claims_reason, is_current};
ghost use Rattle.trust_mark.specs.Marks.{case_of, issuers_of, owner_of};

use crate::mark::Mark;
use crate::verdict::MarkReason;
use entity_id::EntityId;
use entity_statement::{MarkEntry, Owner, Statement};
use fed_base::{Seq, Text};

// How many seconds a mark may be issued after the moment at which it is looked at.
const LEEWAY: u64 = 60;

/// The first reason among those before `Signature` for which the mark isn't good.
#[tactic(auto, unfolding(crate::specs::Conditions::claims_reason))]
pub(crate) fn claims_reason(
    mark: &Mark,
    entry: &MarkEntry,
    leaf: &EntityId,
    anchor: &Statement,
    t: u64,
) -> Option<MarkReason>
    ensures { (keys : List Jwk) → result
        ≡ claims_reason (case_of entry.now leaf.now (told anchor.now) keys t) mark.now }
{
    if !(mark.sub == *leaf) {
        return Some(MarkReason::Subject);
    }
    if !(mark.mark_type.as_slice() == entry.mark_type.as_slice()) {
        return Some(MarkReason::Kind);
    }
    let Some(issuers) = issuers_of(anchor, mark.mark_type.as_slice()) else {
        return Some(MarkReason::Unlisted);
    };
    if !admits(issuers, &mark.iss) {
        return Some(MarkReason::Issuer);
    }
    if !is_current(mark, t) {
        return Some(MarkReason::Times);
    }
    None
}

/// Those who may issue marks of the type, where the trust anchor lists it (OpenID Federation 1.0 section 3.1.2,
/// `trust_mark_issuers`).
#[tactic(auto, unfolding(crate::specs::Marks::issuers_of))]
pub fn issuers_of<'a>(anchor: &'a Statement, mark_type: &[u8]) -> Option<&'a Seq<Text>>
    ensures { option_copied result ≡ issuers_of (told anchor.now) mark_type.now }
{
    let all = anchor.issuers.as_slice();
    for issuers in all {
        if issuers.mark_type.as_slice() == mark_type {
            return Some(&issuers.who);
        }
    }
    None
}

/// Whether the list of a type lets the entity issue marks of it: any entity, where it is empty (section 3.1.2).
pub fn admits(who: &Seq<Text>, iss: &EntityId) -> bool
    ensures { result ≡ admits who.now iss.now }
{
    who.as_slice().is_empty() || contains(who.as_slice(), iss.text())
}

fn contains(texts: &[Text], text: &[u8]) -> bool
    ensures { result ≡ list_any (bytes_eq text.now) texts.now }
{
    texts.iter().any(|other| text == other.as_slice())
}

/// The owner of the type, where the trust anchor names one.
#[tactic(auto, unfolding(crate::specs::Marks::owner_of))]
pub(crate) fn owner_of<'a>(anchor: &'a Statement, mark_type: &[u8]) -> Option<&'a Owner>
    ensures { option_map told_owner (option_copied result) ≡ owner_of (told anchor.now) mark_type.now }
{
    let all = anchor.owners.as_slice();
    for owner in all {
        if owner.mark_type.as_slice() == mark_type {
            return Some(owner);
        }
    }
    None
}

/// Whether the mark was issued at the latest a minute after the moment, and hasn't ended at it.
pub(crate) fn is_current(mark: &Mark, t: u64) -> bool
    ensures { result ≡ is_current mark.now t }
{
    mark.iat <= t.saturating_add(LEEWAY)
        && match mark.exp {
            Some(exp) => t < exp,
            None => true,
        }
}
