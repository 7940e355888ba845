// What a person reads where nothing is registered.

use chain_check::{Reason, Verdict};
use chain_notes::{Asked, explain_verdict};
use client_register::{Found, RegisterFault, Registered};
use entity_statement::{SignedStatement, Statement};
use fed_base::{Duplicate, Seq, Text};
use fed_json::{copied_texts, read_tree};
use file_notes::explain_unless_list;
use plain_notes::{Notes, Sentence};
use statement_notes::explain_text;
use std::alloc::Global;

/// Says that the configuration doesn't list the trust anchor.
pub(crate) fn explain_no_anchor(alloc: Global, notes: &mut Notes) {
    notes.say(Sentence::of(
        alloc,
        b"the configuration lists no such trust anchor; see its member resolver.anchors",
    ));
}

/// Says why what was posted isn't registered, by what was found of its chain. Why none was found is said where it is looked for, and
/// that memory was wanting at the end of the command.
pub(crate) fn explain_answer(
    alloc: Global,
    posted: &[u8],
    found: Option<Found>,
    asked: &Asked<'_>,
    answer: &Result<Registered, RegisterFault>,
    notes: &mut Notes,
) {
    match answer {
        Err(RegisterFault::Form) => explain_posted(alloc, posted, notes),
        Err(RegisterFault::Chain { place, reason }) => {
            explain_chain(alloc, posted, found, asked, *place, reason, notes);
        }
        Err(RegisterFault::NoType) => notes.say(Sentence::of(
            alloc,
            b"the leaf's metadata has no openid_relying_party, or a superior's allowed_entity_types takes it away",
        )),
        Ok(_)
        | Err(
            RegisterFault::NoChain
            | RegisterFault::Spent
            | RegisterFault::Fault
            | RegisterFault::Memory,
        ) => {}
    }
}

// Says what is wrong with the chain that was checked.
fn explain_chain(
    alloc: Global,
    posted: &[u8],
    found: Option<Found>,
    asked: &Asked<'_>,
    place: u64,
    reason: &Reason,
    notes: &mut Notes,
) {
    let Some(chain) = chain_of(alloc, posted, found) else {
        return;
    };
    let Ok(reason) = reason.copy(alloc) else {
        return;
    };
    let verdict = Verdict::Refused { place, reason };
    explain_verdict(alloc, &chain, asked, &verdict, notes);
}

// The texts of the chain that was checked: those that were found, with the posted one in the place of the first, or those that were posted.
fn chain_of(alloc: Global, posted: &[u8], found: Option<Found>) -> Option<Seq<Text>> {
    match found {
        Some(Found::Chain(texts)) => led_by(alloc, posted, texts),
        _ => texts_in(alloc, posted),
    }
}

fn led_by(alloc: Global, posted: &[u8], mut texts: Seq<Text>) -> Option<Seq<Text>> {
    let text = Text::of(alloc, posted).ok()?;
    if texts.is_empty() {
        texts.push(text).ok()?;
    } else {
        texts.set(0, text);
    }
    Some(texts)
}

fn texts_in(alloc: Global, posted: &[u8]) -> Option<Seq<Text>> {
    let tree = read_tree(alloc, posted).ok()?;
    let texts = copied_texts(alloc, &tree);
    drop(tree);
    texts.ok()?
}

// Says why what was posted is neither a list of texts nor an entity's configuration.
fn explain_posted(alloc: Global, posted: &[u8], notes: &mut Notes) {
    let read = read_tree(alloc, posted);
    if read.is_ok() || posted.starts_with(b"[") {
        explain_unless_list(alloc, posted, &read, notes);
    } else {
        explain_single(alloc, posted, notes);
    }
}

fn explain_single(alloc: Global, posted: &[u8], notes: &mut Notes) {
    match SignedStatement::read(alloc, posted) {
        Ok(Some(signed)) => {
            notes.say(other_sentence(alloc, &signed.statement));
            drop(signed);
        }
        Ok(None) => {
            let about = Sentence::of(alloc, b"standard input: ");
            explain_text(alloc, about, posted, notes);
        }
        Err(_) => {}
    }
}

// What a statement of an entity about another is.
fn other_sentence(alloc: Global, statement: &Statement) -> Sentence {
    Sentence::of(alloc, b"standard input is a statement of ")
        .and(statement.iss.text())
        .and(b" about ")
        .and(statement.sub.text())
        .and(b"; a relying party posts its own configuration, or a chain")
}
