// The good marks of a leaf.

ghost use Rattle.std.specs.Prelude.{◌≡◌, ◌++◌, ◌∷◌, [], IfOk, IsTrue, MatchResult, OnOk, option_and_then};
ghost use Rattle.std.specs.List.{list_all};
ghost use Rattle.std.specs.Option.{option_copied};
ghost use Rattle.entity_statement.specs.Claims.{mark_utf8};
ghost use Rattle.entity_statement.specs.Told.{told};
ghost use Rattle.trust_mark.specs.Marks.{case_of};
ghost use Rattle.resolve_reply.specs.Looking.{AddsConfig, IsLookedAt, Takes, keys_in, tests_with, text_in};
ghost use Rattle.resolve_reply.specs.Marks.{AreConfigs, AreGood, issuers_by_mark, judging_by, keys_of, looked_at, tests_of_marks, text_of};
ghost use Rattle.resolve_reply.specs.Replies.{least_end};
ghost use Rattle.fed_base.specs.Counts.{CountsAtMost, counted};

use crate::issuers::{Issuer, MarkIssuers};
use entity_id::EntityId;
use entity_statement::{MarkEntry, Statement};
use fed_base::{Duplicate, Ledger, Memory, Seq, Steps, Text};
use std::alloc::Global;
use trust_mark::{MarkVerdict, verify_mark};

/// Good marks, and until when they hold together with the chain.
#[derive(Drop)]
pub struct GoodMarks {
    /// Their entries, in the order of the leaf's.
    pub entries: Seq<MarkEntry>,
    /// The least of the chain's end and theirs, in seconds since 1970.
    pub exp: u64,
    /// For each of them the configuration of its mark's issuer: a signed text.
    pub configs: Seq<Text>,
}

/// Which of the leaf's first sixteen marks are good: those whose issuer's chain was found and that `verify_mark` says are
/// (OpenID Federation 1.0 section 7.3). Each signature is tested once; `exp` is the end of the leaf's chain.
pub fn good_marks<L: Ledger>(
    alloc: Global,
    leaf: &Statement,
    anchor: &Statement,
    issuers: &MarkIssuers,
    exp: u64,
    t: u64,
    steps: &mut Steps<L>,
) -> Result<GoodMarks, Memory>
    requires { issuers.now.by_mark ≡ issuers_by_mark leaf.now.marks (told anchor.now) }
    ensures good { IfOk result (AreGood (judging_by leaf.now.sub (told anchor.now) issuers.now.found t) (looked_at leaf.now.marks) exp) }
    ensures utf8 { IfOk result (λ good. IsTrue (list_all mark_utf8 good.entries)) }
    ensures configs { IfOk result (λ good. AreConfigs (text_of issuers.now.found) good.entries good.configs) }
    // How many signatures were tested, as the ledger counts them.
    ensures counted { MatchResult result
        (λ _. L.count steps.new.ledger ≡ counted (tests_of_marks (judging_by leaf.now.sub (told anchor.now) issuers.now.found t) (looked_at leaf.now.marks)) (L.count steps.old.ledger))
        (λ _. CountsAtMost (tests_of_marks (judging_by leaf.now.sub (told anchor.now) issuers.now.found t) (looked_at leaf.now.marks)) (L.count steps.old.ledger) (L.count steps.new.ledger)) }
{
    let mut good = GoodMarks {
        entries: Seq::new(alloc),
        exp,
        configs: Seq::new(alloc),
    };
    for place in 0..issuers.by_mark.len() {
        let entry = &leaf.marks.as_slice()[place];
        let issuer = issuer_of(issuers.found.as_slice(), &issuers.by_mark.as_slice()[place]);
        good.look_at(alloc, entry, issuer, &leaf.sub, anchor, t, steps)?;
    }
    Ok(good)
}

// What is kept of the issuer, where its chain was found.
fn issuer_of<'a>(found: &'a [Issuer], issuer: &Option<EntityId>) -> Option<&'a Issuer>
    ensures keys { keys_in (option_copied result) ≡ option_and_then (keys_of found.now) issuer.now }
    ensures text { text_in (option_copied result) ≡ option_and_then (text_of found.now) issuer.now }
{
    match issuer {
        Some(issuer) => issuer_of_id(found, issuer),
        None => None,
    }
}

fn issuer_of_id<'a>(found: &'a [Issuer], id: &EntityId) -> Option<&'a Issuer>
    ensures keys { keys_in (option_copied result) ≡ keys_of found.now id.now }
    ensures text { text_in (option_copied result) ≡ text_of found.now id.now }
{
    for issuer in found {
        if issuer.id == *id {
            return Some(issuer);
        }
    }
    None
}

impl GoodMarks {
    // Looks at an entry by the keys of its mark's issuer, and takes it where the mark is good.
    fn look_at<L: Ledger>(
        &mut self,
        alloc: Global,
        entry: &MarkEntry,
        issuer: Option<&Issuer>,
        leaf: &EntityId,
        anchor: &Statement,
        t: u64,
        steps: &mut Steps<L>,
    ) -> Result<(), Memory>
        ensures looked { OnOk result (IsLookedAt (λ keys. case_of entry.now leaf.now (told anchor.now) keys t) (keys_in (option_copied issuer.entry)) self.old self.new) }
        ensures configs { OnOk result (AddsConfig entry.now (text_in (option_copied issuer.entry)) self.old self.new) }
        ensures counted { MatchResult result
            (λ _. L.count steps.new.ledger ≡ counted (tests_with (λ keys. case_of entry.now leaf.now (told anchor.now) keys t) (keys_in (option_copied issuer.entry))) (L.count steps.old.ledger))
            (λ _. CountsAtMost (tests_with (λ keys. case_of entry.now leaf.now (told anchor.now) keys t) (keys_in (option_copied issuer.entry))) (L.count steps.old.ledger) (L.count steps.new.ledger)) }
    {
        let Some(issuer) = issuer else {
            return Ok(());
        };
        match verify_mark(alloc, entry, leaf, anchor, &issuer.keys, t, steps)? {
            MarkVerdict::Good(end) => self.take(alloc, entry, &issuer.text, end),
            MarkVerdict::Bad(_) => Ok(()),
        }
    }

    // Takes an entry whose mark is good until then, with the configuration of the mark's issuer.
    fn take(
        &mut self,
        alloc: Global,
        entry: &MarkEntry,
        config: &Text,
        end: Option<u64>,
    ) -> Result<(), Memory>
        ensures takes { OnOk result (Takes entry.now end self.old self.new) }
        ensures config { OnOk result (self.new.configs ≡ self.old.configs ++ config.now ∷ []) }
    {
        self.entries.push(entry.copy(alloc)?)?;
        self.configs.push(config.copy(alloc)?)?;
        self.exp = least_end(self.exp, end);
        Ok(())
    }
}

fn least_end(least: u64, end: Option<u64>) -> u64
    ensures { result ≡ least_end least end }
{
    match end {
        Some(end) => least.min(end),
        None => least,
    }
}
