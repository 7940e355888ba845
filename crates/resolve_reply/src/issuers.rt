// The issuers of a leaf's marks.

ghost use Rattle.std.specs.Prelude.{◌≡◌, [], IfOk, OnOk, bytes_eq};
ghost use Rattle.std.specs.List.{list_any};
ghost use Rattle.entity_statement.specs.Told.{told};
ghost use Rattle.resolve_reply.specs.Marks.{each_named, is_admitted, is_searched, issuers_by_mark, looked_at, searched_for};
ghost use Rattle.resolve_reply.specs.Looking.{added_once};

use entity_id::EntityId;
use entity_statement::{MarkEntry, Statement};
use fed_base::{Duplicate, Memory, Seq, Text};
use jwk_set::JwkSet;
use std::alloc::Global;
use trust_mark::{Mark, admits, issuers_of, mark_of};

/// How many marks of a leaf are looked at.
const MAX_MARKS: usize = 16;

/// An issuer of marks whose chain was found.
#[derive(Drop)]
pub struct Issuer {
    /// The issuer.
    pub id: EntityId,
    /// The keys of its configuration.
    pub keys: JwkSet,
    /// Its configuration: the signed text with which its chain begins.
    pub text: Text,
}

/// The issuers of a leaf's marks.
#[derive(Drop)]
pub struct MarkIssuers {
    /// For each of the leaf's first sixteen marks the issuer whose chain is searched for it: where the mark reads as one of its
    /// entry's type, and the trust anchor lets its issuer issue marks of the type (OpenID Federation 1.0 section 7.3).
    pub by_mark: Seq<Option<EntityId>>,
    /// Those whose chain was found.
    pub found: Seq<Issuer>,
}

impl MarkIssuers {
    /// The issuers of a leaf's marks, of whom none was found yet.
    pub fn of(alloc: Global, leaf: &Statement, anchor: &Statement) -> Result<MarkIssuers, Memory>
        ensures by_mark { IfOk result (λ issuers. issuers.by_mark ≡ issuers_by_mark leaf.now.marks (told anchor.now)) }
        ensures found { IfOk result (λ issuers. issuers.found ≡ []) }
    {
        let marks = looked_at(leaf.marks.as_slice());
        let mut by_mark = Seq::new(alloc);
        for entry in marks {
            by_mark.push(searched_for(alloc, entry, anchor)?)?;
        }
        Ok(MarkIssuers {
            by_mark,
            found: Seq::new(alloc),
        })
    }

    /// Those that are searched, each once, in the order of the marks.
    #[tactic(auto, unfolding(crate::specs::Marks::each_named))]
    pub fn searched(&self, alloc: Global) -> Result<Seq<EntityId>, Memory>
        ensures { IfOk result (λ searched. searched ≡ each_named self.now.by_mark) }
    {
        let mut searched = Seq::new(alloc);
        for issuer in self.by_mark.as_slice() {
            add_once(alloc, &mut searched, issuer)?;
        }
        Ok(searched)
    }
}

// Adds an issuer that isn't there yet.
fn add_once(
    alloc: Global,
    kept: &mut Seq<EntityId>,
    issuer: &Option<EntityId>,
) -> Result<(), Memory>
    ensures { OnOk result (kept.new ≡ added_once kept.old issuer.now) }
{
    let Some(issuer) = issuer else {
        return Ok(());
    };
    if contains(kept.as_slice(), issuer) {
        return Ok(());
    }
    kept.push(issuer.copy(alloc)?)
}

// The marks that are looked at.
#[tactic(auto, unfolding(crate::specs::Marks::looked_at), using(std::proofs::lemmas::List::take_min))]
fn looked_at(marks: &[MarkEntry]) -> &[MarkEntry]
    ensures { result.now ≡ looked_at marks.now }
{
    let (looked_at, _) = marks.split_at(marks.len().min(MAX_MARKS));
    looked_at
}

fn contains(ids: &[EntityId], id: &EntityId) -> bool
    ensures { result ≡ list_any (bytes_eq id.now) ids.now }
{
    ids.iter().any(|other| id == other)
}

// The issuer whose chain is searched for a mark.
#[tactic(auto, unfolding(crate::specs::Marks::searched_for))]
fn searched_for(
    alloc: Global,
    entry: &MarkEntry,
    anchor: &Statement,
) -> Result<Option<EntityId>, Memory>
    ensures { IfOk result (λ issuer. issuer ≡ searched_for (told anchor.now) entry.now) }
{
    let Some(mark) = mark_of(alloc, entry.text.as_slice())? else {
        return Ok(None);
    };
    if is_searched(&mark, entry, anchor) {
        Ok(Some(mark.iss))
    } else {
        Ok(None)
    }
}

// Whether the mark is of its entry's type, and the trust anchor lets its issuer issue marks of the type.
fn is_searched(mark: &Mark, entry: &MarkEntry, anchor: &Statement) -> bool
    ensures { result ≡ is_searched (told anchor.now) entry.now mark.now }
{
    mark.mark_type.as_slice() == entry.mark_type.as_slice() && is_admitted(mark, anchor)
}

// Whether the trust anchor lists the mark's type, and lets its issuer issue marks of the type.
fn is_admitted(mark: &Mark, anchor: &Statement) -> bool
    ensures { result ≡ is_admitted (told anchor.now) mark.now }
{
    match issuers_of(anchor, mark.mark_type.as_slice()) {
        Some(who) => admits(who, &mark.iss),
        None => false,
    }
}
