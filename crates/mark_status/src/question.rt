// What is asked about a mark, and what comes of it.

ghost use Rattle.std.specs.Prelude.{◌≡◌, IfOk, IsSome, MatchResult, OnErr, Some};
ghost use Rattle.entity_statement.specs.Signed.{statement_of};
ghost use Rattle.trust_mark.specs.Marks.{mark_of};
ghost use Rattle.trust_mark.specs.Signed.{IsReading, status_answer_of};
ghost use Rattle.mark_status.specs.Answers.{asking_of, is_about, tests_of_text, told_by};
ghost use Rattle.mark_status.specs.Heeding.{around, end_of};
ghost use Rattle.mark_status.specs.Posts.{BreaksOff, views_of};
ghost use Rattle.mark_status.specs.Stages.{Hears, asking_by};
ghost use Rattle.mark_status.specs.Tells.{tell_of, tell_of_status, tests_of};
ghost use Rattle.fed_base.specs.Counts.{counted};

use crate::asker::Asker;
use crate::form::form;
use crate::issuer::{Configured, Named};
use crate::tell::Tell;
use entity_id::EntityId;
use entity_statement::MarkEntry;
use fed_base::{Ledger, Memory, Steps, Text};
use fed_ports::{LinkFault, Page};
use jwk_set::JwkSet;
use sealed::is_sealed;
use std::alloc::Global;
use trust_mark::{Signed, StatusAnswer, signed_answer};

// How many seconds an answer may be given after the moment at which it is looked at.
const LEEWAY: u64 = 60;

/// What is known of a mark's issuer when it is asked about the mark.
#[derive(Drop)]
pub(crate) struct Question {
    /// The mark's issuer.
    pub(crate) issuer: EntityId,
    /// When the mark ends.
    pub(crate) end: Option<u64>,
    /// Where the issuer is asked.
    pub(crate) endpoint: Option<Text>,
    /// The keys by which it answers.
    pub(crate) keys: JwkSet,
    /// The moment, in seconds since 1970.
    pub(crate) moment: u64,
}

impl Question {
    /// The question about an entry's mark, by its issuer's configuration.
    #[tactic(auto, unfolding(crate::specs::Answers::asking_of))]
    pub(crate) fn of(
        alloc: Global,
        entry: &MarkEntry,
        config: &Text,
        t: u64,
    ) -> Result<Question, Memory>
        requires mark { IsSome (mark_of entry.now.text) }
        requires config { IsSome (statement_of config.now) }
        ensures asks { IfOk result (λ question. asking_of entry.now config.now t ≡ Some (asking_by entry.now.text question)) }
        ensures end { IfOk result (λ question. question.end ≡ end_of entry.now) }
    {
        let named = Named::of(alloc, entry.text.as_slice())?;
        let configured = Configured::of(alloc, config.as_slice())?;
        Ok(Question {
            issuer: named.iss,
            end: named.end,
            endpoint: configured.endpoint,
            keys: configured.keys,
            moment: t,
        })
    }

    /// What the issuer tells of the mark, where it can be asked.
    pub(crate) fn ask<A: Asker, L: Ledger>(
        &self,
        alloc: Global,
        asker: &mut A,
        entry: &MarkEntry,
        steps: &mut Steps<L>,
    ) -> Result<Tell, Memory>
        ensures hears { IfOk result (Hears (views_of A.asked A.gave) (asking_by entry.now.text self.now) entry.now
            (around asker.old (L.count steps.old.ledger)) (around asker.new (L.count steps.new.ledger))) }
        ensures broken { OnErr result (BreaksOff (views_of A.asked A.gave) 1 asker.old asker.new) }
        ensures untested { OnErr result (L.count steps.new.ledger ≡ L.count steps.old.ledger) }
    {
        let Some(url) = &self.endpoint else {
            return Ok(Tell::Unasked);
        };
        let body = form(alloc, &entry.text)?;
        match asker.post(alloc, url, &body) {
            Ok(page) => self.tell(alloc, &entry.text, page, steps),
            Err(LinkFault::Failed) => Ok(Tell::Fault),
            Err(LinkFault::Memory) => Err(Memory),
        }
    }

    // What a page tells of the mark.
    fn tell<L: Ledger>(
        &self,
        alloc: Global,
        mark: &Text,
        page: Page,
        steps: &mut Steps<L>,
    ) -> Result<Tell, Memory>
        ensures tell { IfOk result (λ tell. tell ≡ tell_of (asking_by mark.now self.now) (Some page)) }
        ensures counted { MatchResult result
            (λ _. L.count steps.new.ledger ≡ counted (tests_of (asking_by mark.now self.now) (Some page)) (L.count steps.old.ledger))
            (λ _. L.count steps.new.ledger ≡ L.count steps.old.ledger) }
    {
        match page {
            Page::Document(text) => self.tell_of_text(alloc, mark, &text, steps),
            _ => Ok(Tell::Useless),
        }
    }

    // What a text tells of the mark.
    #[tactic(auto, unfolding(crate::specs::Answers::told_by, crate::specs::Answers::tests_of_text))]
    fn tell_of_text<L: Ledger>(
        &self,
        alloc: Global,
        mark: &Text,
        text: &Text,
        steps: &mut Steps<L>,
    ) -> Result<Tell, Memory>
        ensures tell { IfOk result (λ tell. tell ≡ tell_of_status (told_by (asking_by mark.now self.now) text.now)) }
        ensures counted { MatchResult result
            (λ _. L.count steps.new.ledger ≡ counted (tests_of_text (asking_by mark.now self.now) text.now) (L.count steps.old.ledger))
            (λ _. L.count steps.new.ledger ≡ L.count steps.old.ledger) }
    {
        match signed_answer(alloc, text.as_slice())? {
            Some(signed) => {
                let tell = self.tell_by(alloc, mark, &signed, steps);
                // as one value, so that the proof doesn't follow each of its parts
                drop(signed);
                tell
            }
            None => Ok(Tell::Useless),
        }
    }

    // What an answer tells of the mark. Its signature is tested only where its claims are those of an answer on the mark.
    fn tell_by<L: Ledger>(
        &self,
        alloc: Global,
        mark: &Text,
        signed: &Signed<StatusAnswer>,
        steps: &mut Steps<L>,
    ) -> Result<Tell, Memory>
        requires { IsReading status_answer_of signed.now.compact.whole (Some signed.now) }
        ensures tell { IfOk result (λ tell. tell ≡ tell_of_status (told_by (asking_by mark.now self.now) signed.now.compact.whole)) }
        ensures counted { MatchResult result
            (λ _. L.count steps.new.ledger ≡ counted (tests_of_text (asking_by mark.now self.now) signed.now.compact.whole) (L.count steps.old.ledger))
            (λ _. L.count steps.new.ledger ≡ L.count steps.old.ledger) }
    {
        if !self.is_answered(mark, &signed.claims) {
            return Ok(Tell::Useless);
        }
        if !is_sealed(alloc, &signed.compact, &self.keys, steps)? {
            return Ok(Tell::Useless);
        }
        Ok(Tell::of(signed.claims.status))
    }

    // Whether the answer is the issuer's, about the mark, and given at the latest a minute after the moment.
    fn is_answered(&self, mark: &Text, answer: &StatusAnswer) -> bool
        ensures { result ≡ is_about (asking_by mark.now self.now) answer.now }
    {
        answer.iss == self.issuer
            && answer.trust_mark.as_slice() == mark.as_slice()
            && answer.iat <= self.moment.saturating_add(LEEWAY)
    }
}
