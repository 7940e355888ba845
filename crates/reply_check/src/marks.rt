// The trust marks of a reply.

ghost use Rattle.std.specs.Prelude.{◌≡◌, [], false, map, IfOk, Option, is_some, option_and_then, unwrap_or};
ghost use Rattle.std.specs.Option.{option_copied, option_map_or};
ghost use Rattle.entity_statement.specs.Told.{told};
ghost use Rattle.trust_mark.specs.Marks.{case_of};
ghost use Rattle.trust_mark.specs.Verdicts.{IsVerdictOn};
ghost use Rattle.trust_mark.specs.declared.mark.Mark.{Mark as Claims};
ghost use Rattle.reply_check.specs.Marks.{IsFlaw, ends_before, flaw_by, is_checked, known_keys, reason_by};
ghost use Rattle.reply_check.specs.Stages.{AreLooked, CanEnd, IsFirst, IsJudging, here_by, keys_in};

use crate::flaw::Flaw;
use crate::judging::{Judging, judging_of};
use crate::looked::{Looked, Place};
use entity_id::EntityId;
use entity_statement::MarkEntry;
use fed_base::{Ledger, Memory, Seq, Steps};
use jwk_set::JwkSet;
use resolve_reply::Said;
use std::alloc::Global;
use trust_mark::{Mark, MarkReason, MarkVerdict, mark_of, verify_mark};

/// The first mark that doesn't stand, as far as the reply shows it, or which of the marks were checked.
pub(crate) fn look_at_marks<L: Ledger>(
    alloc: Global,
    said: &Said,
    steps: &mut Steps<L>,
) -> Result<Looked, Memory>
    requires { CanEnd said.now.chain }
    ensures { IfOk result (AreLooked said.now) }
{
    let here = judging_of(alloc, said)?;
    let looked = look_at_all(alloc, said, &here, steps);
    drop(here);
    looked
}

// The same where it is known by what they are judged.
fn look_at_all<L: Ledger>(
    alloc: Global,
    said: &Said,
    here: &Judging,
    steps: &mut Steps<L>,
) -> Result<Looked, Memory>
    requires { IsJudging said.now here.now }
    ensures { IfOk result (AreLooked said.now) }
{
    let marks = said.marks.as_slice();
    match first_flaw(alloc, marks, here, steps)? {
        Some(place) => Ok(Looked::Flawed(place)),
        None => Ok(Looked::Stand(checked_among(alloc, marks, here)?)),
    }
}

// The first mark that doesn't stand.
fn first_flaw<L: Ledger>(
    alloc: Global,
    marks: &[MarkEntry],
    here: &Judging,
    steps: &mut Steps<L>,
) -> Result<Option<Place>, Memory>
    ensures { IfOk result (IsFirst (here_by here.now) marks.now) }
{
    for place in 0..marks.len() {
        if let Some(flaw) = flaw_of(alloc, &marks[place], here, steps)? {
            return Ok(Some(Place {
                place: place as u64,
                flaw,
            }));
        }
    }
    Ok(None)
}

// What is wrong with an entry.
fn flaw_of<L: Ledger>(
    alloc: Global,
    entry: &MarkEntry,
    here: &Judging,
    steps: &mut Steps<L>,
) -> Result<Option<Flaw>, Memory>
    ensures { IfOk result (IsFlaw (here_by here.now) entry.now) }
{
    let mark = mark_of(alloc, entry.text.as_slice())?;
    let late = is_late(&mark, here.end);
    let keys = issuer_keys(&mark, here);
    let checked = are_shown(keys);
    let verdict = verdict_by(alloc, entry, here, keys, steps);
    drop(mark);
    Ok(flaw_by(reason_by(checked, verdict?), late))
}

// Whether the mark, where there is one, ends before the moment.
fn is_late(mark: &Option<Mark>, end: u64) -> bool
    ensures { result ≡ option_map_or (ends_before end) mark.now false }
{
    match mark {
        Some(mark) => match mark.exp {
            Some(exp) => exp < end,
            None => false,
        },
        None => false,
    }
}

// The keys of the mark's issuer, where the reply shows them.
fn issuer_keys<'a>(mark: &Option<Mark>, here: &'a Judging) -> Option<&'a JwkSet>
    ensures { keys_in (option_copied result) ≡ option_and_then (λ (m : Claims). known_keys (here_by here.now) m.iss) mark.now }
{
    match mark {
        Some(mark) => known_keys(&mark.iss, here),
        None => None,
    }
}

// The keys of an issuer that is the leaf, or the trust anchor.
#[tactic(auto, unfolding(crate::specs::Marks::known_keys))]
fn known_keys<'a>(iss: &EntityId, here: &'a Judging) -> Option<&'a JwkSet>
    ensures { keys_in (option_copied result) ≡ known_keys (here_by here.now) iss.now }
{
    if *iss == here.leaf.sub {
        Some(&here.leaf.jwks)
    } else if *iss == here.anchor.sub {
        Some(&here.anchor.jwks)
    } else {
        None
    }
}

// The verdict on an entry's mark by these keys of its issuer, and by none where the reply doesn't show them.
fn verdict_by<L: Ledger>(
    alloc: Global,
    entry: &MarkEntry,
    here: &Judging,
    keys: Option<&JwkSet>,
    steps: &mut Steps<L>,
) -> Result<MarkVerdict, Memory>
    ensures { IfOk result (IsVerdictOn (case_of entry.now here.now.leaf.sub (told here.now.anchor)
        (unwrap_or (keys_in (option_copied keys.entry)) []) here.now.moment)) }
{
    let none = no_keys(alloc);
    let verdict = verify_mark(
        alloc,
        entry,
        &here.leaf.sub,
        &here.anchor,
        keys_or(keys, &none),
        here.moment,
        steps,
    );
    drop(none);
    verdict
}

// The keys, where there are some; else the set of none.
fn keys_or<'a>(keys: Option<&'a JwkSet>, none: &'a JwkSet) -> &'a JwkSet
    requires { none.now.keys ≡ [] }
    ensures { result.now.keys ≡ unwrap_or (keys_in (option_copied keys.entry)) [] }
{
    match keys {
        Some(keys) => keys,
        None => none,
    }
}

fn no_keys(alloc: Global) -> JwkSet
    ensures { result.keys ≡ [] }
{
    JwkSet {
        keys: Seq::new(alloc),
    }
}

// The reason for which a mark isn't good; that it isn't sealed counts only where that was checked.
fn reason_by(checked: bool, verdict: MarkVerdict) -> Option<MarkReason>
    ensures { result ≡ reason_by checked verdict }
{
    match verdict {
        MarkVerdict::Good(_) => None,
        MarkVerdict::Bad(MarkReason::Signature) => if checked {
            Some(MarkReason::Signature)
        } else {
            None
        },
        MarkVerdict::Bad(reason) => Some(reason),
    }
}

fn flaw_by(reason: Option<MarkReason>, late: bool) -> Option<Flaw>
    ensures { result ≡ flaw_by reason late }
{
    match reason {
        Some(reason) => Some(Flaw::Bad(reason)),
        None => if late { Some(Flaw::Late) } else { None },
    }
}

// Which of the marks are checked.
fn checked_among(alloc: Global, marks: &[MarkEntry], here: &Judging) -> Result<Seq<bool>, Memory>
    ensures { IfOk result (λ checked. checked ≡ map (is_checked (here_by here.now)) marks.now) }
{
    let mut checked = Seq::new(alloc);
    for entry in marks {
        checked.push(is_checked(alloc, entry, here)?)?;
    }
    Ok(checked)
}

// Whether the reply shows the keys of the mark's issuer.
#[tactic(auto, unfolding(crate::specs::Marks::issuer_keys))]
fn is_checked(alloc: Global, entry: &MarkEntry, here: &Judging) -> Result<bool, Memory>
    ensures { IfOk result (λ checked. checked ≡ is_checked (here_by here.now) entry.now) }
{
    let mark = mark_of(alloc, entry.text.as_slice())?;
    Ok(are_shown(issuer_keys(&mark, here)))
}

// Whether there are any.
fn are_shown(keys: Option<&JwkSet>) -> bool
    ensures { result ≡ is_some (keys_in (option_copied keys.entry)) }
{
    matches!(keys, Some(_))
}
