// Why a chain is refused.

use crate::limits::{explain_name, explain_path};
use crate::links::{explain_names, explain_signature};
use crate::places::{place_of, statements_of};
use chain_check::{Reason, Verdict};
use entity_id::EntityId;
use entity_statement::SignedStatement;
use fed_base::{Seq, Text};
use jwk_set::JwkSet;
use plain_notes::{Notes, Sentence};
use policy_merge::Operator;
use statement_notes::explain_text;
use std::alloc::Global;

/// What a chain was checked for: the trust anchor, its keys, and the moment in seconds since 1970.
#[derive(Drop)]
pub struct Asked<'a> {
    pub anchor: &'a EntityId,
    pub keys: &'a JwkSet,
    pub moment: u64,
}

/// Says why the chain is refused: what the verdict's place and reason are about.
pub fn explain_verdict(
    alloc: Global,
    chain: &Seq<Text>,
    asked: &Asked<'_>,
    verdict: &Verdict,
    notes: &mut Notes,
) {
    match verdict {
        Verdict::Valid(_) => {},
        Verdict::Refused {
            place,
            reason: Reason::Form,
        } => explain_place(alloc, chain.as_slice(), *place, notes),
        Verdict::Refused { place, reason } => {
            let entries = statements_of(alloc, chain.as_slice());
            explain_reason(alloc, entries.as_slice(), asked, *place, reason, notes);
        }
    }
}

fn explain_reason(
    alloc: Global,
    entries: &[SignedStatement],
    asked: &Asked<'_>,
    place: u64,
    reason: &Reason,
    notes: &mut Notes,
) {
    let Some(entry) = entries.get(place as usize) else {
        return;
    };
    let about = place_of(alloc, place, &entry.statement);
    match reason {
        Reason::Form => drop(about),
        Reason::Names => explain_names(alloc, entries, asked.anchor, place, about, notes),
        Reason::Times => notes.say(times_sentence(
            alloc,
            about,
            entry.statement.iat,
            entry.statement.exp,
            asked.moment,
        )),
        Reason::Signature => explain_signature(entries, asked.keys, place, about, notes),
        Reason::PathLength => explain_path(
            alloc,
            &entry.statement.constraints,
            place,
            about,
            notes,
        ),
        Reason::Name => explain_name(alloc, entries, &entry.statement.constraints, about, notes),
        Reason::Conflict {
            entity_type,
            parameter,
            first,
            second,
        } => explain_conflict(about, entity_type, parameter, *first, *second, notes),
        Reason::Policy {
            entity_type,
            parameter,
            operator,
        } => notes.say(policy_sentence(about, entity_type, parameter, *operator)),
    }
}

fn policy_sentence(
    about: Sentence,
    entity_type: &Text,
    parameter: &Text,
    operator: Operator,
) -> Sentence {
    about
        .and(b": its metadata ")
        .and(entity_type.as_slice())
        .and(b" ")
        .and(parameter.as_slice())
        .and(b" doesn't pass the operator ")
        .and(operator.name().as_bytes())
        .and(b" of the merged policy")
}

fn explain_place(alloc: Global, chain: &[Text], place: u64, notes: &mut Notes) {
    if chain.is_empty() {
        notes.say(Sentence::of(alloc, b"the chain is empty"));
    } else if place >= 14 {
        notes.say(
            Sentence::of(alloc, b"the chain has ")
                .and_number(alloc, chain.len() as u64)
                .and(b" texts; 14 are read at most"),
        );
    } else if let Some(text) = chain.get(place as usize) {
        let about = Sentence::of(alloc, b"place ")
            .and_number(alloc, place)
            .and(b": ");
        explain_text(alloc, about, text.as_slice(), notes);
    }
}

fn times_sentence(alloc: Global, about: Sentence, iat: u64, exp: u64, moment: u64) -> Sentence {
    if exp <= moment {
        about.and(b" expired at ").and_moment(alloc, exp)
    } else {
        about
            .and(b" is issued at ")
            .and_moment(alloc, iat)
            .and(b", more than a minute after ")
            .and_moment(alloc, moment)
    }
}

fn explain_conflict(
    about: Sentence,
    entity_type: &Text,
    parameter: &Text,
    first: Operator,
    second: Operator,
    notes: &mut Notes,
) {
    let about = about
        .and(b": the policies of ")
        .and(entity_type.as_slice())
        .and(b" ")
        .and(parameter.as_slice());
    notes.say(if first == Operator::OneOf && second == Operator::OneOf {
        about.and(b" from the anchor down to it leave no value in one_of")
    } else if first == second {
        about
            .and(b" from the anchor down to it have two values of ")
            .and(first.name().as_bytes())
            .and(b" that can't be merged")
    } else {
        about
            .and(b" from the anchor down to it have ")
            .and(first.name().as_bytes())
            .and(b" and ")
            .and(second.name().as_bytes())
            .and(b", which don't stand together")
    });
}
