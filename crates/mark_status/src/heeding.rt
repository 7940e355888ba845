// Marks that are asked about one after the other.

ghost use Rattle.std.specs.Prelude.{◌≡◌, ◌≤◌, List, ℕ, length, All, Contains, IfOk, IsSome, MatchResult, OnErr, OnOk, Some};
ghost use Rattle.entity_statement.specs.Signed.{statement_of};
ghost use Rattle.entity_statement.specs.declared.marks.MarkEntry.{MarkEntry as AnyEntry};
ghost use Rattle.trust_mark.specs.Marks.{mark_of};
ghost use Rattle.mark_status.specs.Heeding.{Heeds, HeedsBy, IsKept, IsKeptOrTold, around, asked_in, end_of, faults_in, heeding_of};
ghost use Rattle.mark_status.specs.Posts.{BreaksOff, CountsFaults, views_of};
ghost use Rattle.mark_status.specs.Stages.{HeedsOne, asking_by};
ghost use Rattle.mark_status.specs.declared.post.Post.{Post};
ghost use Rattle.fed_base.specs.Counts.{CountsAtMost, counted};

use crate::asker::Asker;
use crate::heeded::Heeded;
use crate::question::Question;
use entity_statement::MarkEntry;
use fed_base::{Ledger, Memory, Seq, Steps, Text};
use std::alloc::Global;

/// Which of the marks are kept, by what their issuers tell of them at the moment, in seconds since 1970 (OpenID Federation
/// 1.0 section 8.4). For each mark, in order, whose issuer's configuration names a status endpoint, its text is posted there
/// once. `configs` has for each mark the text of its issuer's configuration. An answer counts only where it is the mark's
/// issuer's, about this very mark, given at the latest a minute after the moment, and sealed by the keys of that configuration.
pub fn heed<A: Asker, L: Ledger>(
    alloc: Global,
    asker: &mut A,
    marks: &Seq<MarkEntry>,
    configs: &Seq<Text>,
    t: u64,
    steps: &mut Steps<L>,
) -> Result<Heeded, Memory>
    requires marks { All (λ entry. IsSome (mark_of entry.text)) marks.now }
    requires configs { All (λ config. IsSome (statement_of config)) configs.now }
    requires each { length marks.now ≡ length configs.now }
    ensures heeds { IfOk result (HeedsBy (views_of A.asked A.gave) (heeding_of marks.now configs.now t)
        (around asker.old (L.count steps.old.ledger)) (around asker.new (L.count steps.new.ledger))) }
    // Each mark that is kept was answered active, or its issuer names no endpoint; one that isn't kept was told something else.
    ensures kept { IfOk result (λ heeded. (posts : List Post) (tests : ℕ) → Heeds (heeding_of marks.now configs.now t) posts tests heeded
        → All (IsKept (heeding_of marks.now configs.now t) posts) heeded.kept) }
    ensures left_out { IfOk result (λ heeded. All (IsKeptOrTold marks.now heeded) marks.now) }
    // The calls are counted by the tells that aren't Unasked, and the faults by those that are Fault.
    ensures calls { IfOk result (λ heeded. (A.asked asker.new).calls ≡ counted (asked_in heeded.tells) (A.asked asker.old).calls) }
    ensures faults { IfOk result (λ heeded. CountsFaults (faults_in heeded.tells) (A.asked asker.old).faults (A.asked asker.new).faults) }
    // Where memory is wanting, at most one post was made for each mark, and at most one signature tested.
    ensures broken { OnErr result (BreaksOff (views_of A.asked A.gave) (length marks.now) asker.old asker.new) }
    ensures tested { OnErr result (CountsAtMost (length marks.now) (L.count steps.old.ledger) (L.count steps.new.ledger)) }
{
    heed_each(alloc, asker, marks, configs, t, steps)
}

fn heed_each<A: Asker, L: Ledger>(
    alloc: Global,
    asker: &mut A,
    marks: &Seq<MarkEntry>,
    configs: &Seq<Text>,
    t: u64,
    steps: &mut Steps<L>,
) -> Result<Heeded, Memory>
    requires marks { All (λ entry. IsSome (mark_of entry.text)) marks.now }
    requires configs { All (λ config. IsSome (statement_of config)) configs.now }
    requires each { length marks.now ≡ length configs.now }
    ensures heeds { IfOk result (HeedsBy (views_of A.asked A.gave) (heeding_of marks.now configs.now t)
        (around asker.old (L.count steps.old.ledger)) (around asker.new (L.count steps.new.ledger))) }
    ensures broken { OnErr result (BreaksOff (views_of A.asked A.gave) (length marks.now) asker.old asker.new) }
    ensures tested { OnErr result (CountsAtMost (length marks.now) (L.count steps.old.ledger) (L.count steps.new.ledger)) }
{
    let mut heeded = Heeded::new(alloc);
    for place in 0..marks.len() {
        let entry = &marks.as_slice()[place];
        let config = &configs.as_slice()[place];
        let question = Question::of(alloc, entry, config, t)?;
        let heard = heed_one(alloc, asker, entry, &question, steps, &mut heeded);
        // as one value, so that the proof doesn't follow each of its parts
        drop(question);
        heard?;
    }
    Ok(heeded)
}

// Asks about an entry's mark, and adds what is told.
fn heed_one<A: Asker, L: Ledger>(
    alloc: Global,
    asker: &mut A,
    entry: &MarkEntry,
    question: &Question,
    steps: &mut Steps<L>,
    heeded: &mut Heeded,
) -> Result<(), Memory>
    requires { question.now.end ≡ end_of entry.now }
    ensures one { OnOk result (HeedsOne (views_of A.asked A.gave) (asking_by entry.now.text question.now) entry.now
        (around asker.old (L.count steps.old.ledger), heeded.old) (around asker.new (L.count steps.new.ledger), heeded.new)) }
    ensures broken { OnErr result (BreaksOff (views_of A.asked A.gave) 1 asker.old asker.new) }
    ensures tested { OnErr result (CountsAtMost 1 (L.count steps.old.ledger) (L.count steps.new.ledger)) }
{
    let tell = question.ask(alloc, asker, entry, steps)?;
    heeded.add(alloc, entry, question.end, tell)
}
