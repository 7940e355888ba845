// Chains whose signatures are known in part.

ghost use Rattle.std.specs.Prelude.{All, IfOk};
ghost use Rattle.chain_check.specs.declared.judged.Judged.TheVariants.{Told};
ghost use Rattle.chain_check.specs.declared.verdict.Verdict.TheVariants.{Refused};
ghost use Rattle.chain_check.specs.Judging.{IfTold, IsJudgementOn, IsOfItsText, texts_of};
ghost use Rattle.chain_check.specs.Reading.{AreRead};
ghost use Rattle.chain_check.specs.Screening.{JudgesCandidate};
ghost use Rattle.chain_check.specs.Stages.{Passes};
ghost use Rattle.chain_check.specs.Validity.{case_of};
ghost use Rattle.chain_check.specs.Verdicts.{CanBeWritten};

use crate::judged::Judged;
use crate::known::first_untried;
use crate::resolving::resolve;
use crate::screened::Screened;
use crate::screening::screen;
use crate::stop::Stop;
use crate::tried::Tried;
use crate::verdict::Verdict;
use entity_id::EntityId;
use entity_statement::SignedStatement;
use fed_base::{Memory, Seq};
use jwk_set::JwkSet;
use std::alloc::Global;

/// The verdict of [`check_chain`](crate::check_chain) on the texts, where what is known of their signatures decides it, or
/// the first test that it wants: the leaf's text under its own keys comes before that under its superior's. No signature is
/// checked.
pub fn judge(
    alloc: Global,
    chain: &Seq<Tried>,
    anchor: &EntityId,
    keys: &JwkSet,
    t: u64,
) -> Result<Judged, Memory>
    requires { All IsOfItsText chain.now }
    ensures judgement { IfOk result
        (IsJudgementOn (case_of (texts_of chain.now) anchor.now keys.now.keys t) chain.now) }
    ensures written { IfOk result (λ judged. IfTold judged CanBeWritten) }
{
    match screen(alloc, chain, anchor, t)? {
        Screened::Candidate(entries) => judge_candidate(alloc, &entries, chain, keys),
        Screened::Refused { place, reason } => Ok(Judged::Told(Verdict::Refused { place, reason })),
    }
}

/// The same of a chain whose statements a [`screen`](crate::screen) gave, at its anchor and its moment. They aren't read again, so it can
/// be asked again as more of the signatures is known.
pub fn judge_candidate(
    alloc: Global,
    entries: &Seq<SignedStatement>,
    chain: &Seq<Tried>,
    keys: &JwkSet,
) -> Result<Judged, Memory>
    requires own { All IsOfItsText chain.now }
    requires read { AreRead (texts_of chain.now) entries.now }
    ensures judgement { IfOk result (JudgesCandidate chain.now keys.now.keys) }
    ensures written { IfOk result (λ judged. IfTold judged CanBeWritten) }
{
    match judged(alloc, entries.as_slice(), chain.as_slice(), keys) {
        Ok(judged) => Ok(judged),
        Err(Stop::Refused { place, reason }) => Ok(Judged::Told(Verdict::Refused {
            place,
            reason,
        })),
        Err(Stop::Memory) => Err(Memory),
    }
}

fn judged(
    alloc: Global,
    entries: &[SignedStatement],
    chain: &[Tried],
    keys: &JwkSet,
) -> Result<Judged, Stop>
    requires own { All IsOfItsText chain.now }
    requires read { AreRead (texts_of chain.now) entries.now }
    ensures judgement { Passes result (JudgesCandidate chain.now keys.now.keys)
        (λ place reason. JudgesCandidate chain.now keys.now.keys (Told (Refused place reason))) }
    ensures written { Passes result (λ judged. IfTold judged CanBeWritten) (λ place reason. CanBeWritten (Refused place reason)) }
{
    match first_untried(entries, chain, keys)? {
        Some(test) => {
            let public = test.public;
            Ok(Judged::Untried {
                place: test.place,
                public,
            })
        },
        None => Ok(Judged::Told(Verdict::Valid(resolve(alloc, entries)?))),
    }
}
