// What a person reads of the marks that are left out.

use crate::arrivals::Arrival;
use crate::reply::HeededReply;
use entity_statement::{MarkEntry, SignedStatement};
use fed_base::Text;
use mark_status::Tell;
use plain_notes::{Notes, Sentence};
use resolve_reply::Reply;
use std::alloc::Global;
use trust_mark::{MarkStatus, mark_of};

/// Says of each mark of the reply that is left out why.
pub fn explain_marks(alloc: Global, reply: &Reply, heeded: &HeededReply, notes: &mut Notes) {
    let mut posts = 0_usize;
    let marks = heeded.marks.as_slice().iter().zip(reply.configs.as_slice());
    for (place, ((entry, config), tell)) in marks.zip(heeded.tells.as_slice()).enumerate() {
        let arrival = heeded.arrivals.at(posts);
        explain_mark(alloc, place as u64, entry, config, *tell, arrival, notes);
        if !matches!(tell, Tell::Unasked) {
            posts = posts.saturating_add(1);
        }
    }
}

fn explain_mark(
    alloc: Global,
    place: u64,
    entry: &MarkEntry,
    config: &Text,
    tell: Tell,
    arrival: Arrival,
    notes: &mut Notes,
) {
    let about = named(alloc, place, entry);
    match tell {
        Tell::Active | Tell::Unasked => {},
        Tell::Refused(status) => notes.say(
            about
                .and(b"its issuer says that it is ")
                .and(word_of(status)),
        ),
        Tell::Useless | Tell::Fault => notes.say(and_arrival(
            alloc,
            and_endpoint(alloc, about, config),
            entry,
            arrival,
        )),
    }
}

fn word_of(status: MarkStatus) -> &'static [u8] {
    match status {
        MarkStatus::Active => b"active",
        MarkStatus::Expired => b"expired",
        MarkStatus::Revoked => b"revoked",
        MarkStatus::Invalid => b"invalid",
    }
}

// The beginning of a sentence about a mark: its place, its type and its issuer.
fn named(alloc: Global, place: u64, entry: &MarkEntry) -> Sentence {
    let about = Sentence::of(alloc, b"mark ")
        .and_number(alloc, place)
        .and(b" (")
        .and(entry.mark_type.as_slice());
    and_issuer(alloc, about.and(b" by "), entry).and(b") is left out: ")
}

// The sentence with the mark's issuer behind it.
fn and_issuer(alloc: Global, sentence: Sentence, entry: &MarkEntry) -> Sentence {
    match mark_of(alloc, entry.text.as_slice()) {
        Ok(Some(mark)) => sentence.and(mark.iss.text()),
        _ => sentence.and(b"its issuer"),
    }
}

// The sentence with the endpoint behind it that the issuer's configuration names.
fn and_endpoint(alloc: Global, sentence: Sentence, config: &Text) -> Sentence {
    match SignedStatement::read(alloc, config.as_slice()) {
        Ok(Some(signed)) => match signed.statement.status_endpoint() {
            Some(url) => sentence.and(url.as_slice()),
            None => sentence,
        },
        _ => sentence,
    }
}

// The sentence with what came of the post behind it.
fn and_arrival(alloc: Global, sentence: Sentence, entry: &MarkEntry, arrival: Arrival) -> Sentence {
    match arrival {
        Arrival::Text => and_issuer(alloc, sentence.and(b" has no answer by "), entry).and(
            b" on this mark",
        ),
        Arrival::Refusal(status) => sentence
            .and(b" is answered with status ")
            .and_number(alloc, u64::from(status)),
        Arrival::Garbled => sentence.and(b" isn't answered as HTTP is"),
        Arrival::TooLong => sentence.and(b" has more than 262,144 bytes"),
        Arrival::NoRoute => sentence.and(b" has a host to which the configuration has no route"),
        Arrival::Nothing => sentence.and(b" couldn't be asked"),
    }
}
