// What a person reads of a reply that is refused.

use crate::reporting::By;
use plain_notes::{Notes, Sentence};
use reply_check::{Flaw, ReplyReason, ReplyVerdict};
use std::alloc::Global;

/// Says why the reply is refused.
pub(crate) fn explain_reply(alloc: Global, verdict: &ReplyVerdict, by: &By<'_>, notes: &mut Notes) {
    match verdict {
        ReplyVerdict::Sound { .. } => {},
        ReplyVerdict::Refused(ReplyReason::Chain { place, .. }) => {
            notes.say(
                Sentence::of(alloc, b"the reply's chain isn't valid up to ")
                    .and(by.anchor.text())
                    .and(b" at the moment of the reply: see its text at place ")
                    .and_number(alloc, *place)
                    .and(b", from the leaf's 0 on"),
            );
        }
        ReplyVerdict::Refused(ReplyReason::Mark { place, flaw }) => {
            notes.say(
                Sentence::of(alloc, b"the trust mark at place ")
                    .and_number(alloc, *place)
                    .and(of_flaw(*flaw)),
            );
        }
        ReplyVerdict::Refused(ReplyReason::Times) => {
            notes.say(Sentence::of(alloc, b"the reply isn't current at ").and_moment(
                alloc, by.moment,
            ));
        }
        ReplyVerdict::Refused(reason) => notes.say(Sentence::of(alloc, of_reason(reason))),
    }
}

fn of_reason(reason: &ReplyReason) -> &'static [u8] {
    match reason {
        ReplyReason::Form =>
            b"standard input: it isn't a text of the type resolve-response+jwt with the claims of a reply",
        ReplyReason::Signature =>
            b"the reply isn't signed by a key of --keys: is this the key set of the resolver that gave it?",
        ReplyReason::Subject => b"the claim sub isn't the leaf of the reply's chain",
        ReplyReason::Metadata =>
            b"the claim metadata isn't what the chain resolves to, for an entity type that it carries",
        ReplyReason::End => b"the claim exp is later than the end of the reply's chain",
        _ => b"the reply is refused",
    }
}

fn of_flaw(flaw: Flaw) -> &'static [u8] {
    match flaw {
        Flaw::Bad(_) => b" isn't good for the entity at the moment of the reply",
        Flaw::Late => b" ends before the reply",
    }
}
