// The places of a chain.

use entity_statement::{SignedStatement, Statement};
use fed_base::{Seq, Text};
use plain_notes::Sentence;
use std::alloc::Global;

/// The statements of a chain's texts, up to the first that is none, or for which memory is wanting.
pub(crate) fn statements_of(alloc: Global, chain: &[Text]) -> Seq<SignedStatement> {
    let mut entries = Seq::new(alloc);
    for text in chain {
        if !add_statement(alloc, &mut entries, text.as_slice()) {
            break;
        }
    }
    entries
}

fn add_statement(alloc: Global, entries: &mut Seq<SignedStatement>, text: &[u8]) -> bool {
    match SignedStatement::read(alloc, text) {
        Ok(Some(entry)) => entries.push(entry).is_ok(),
        Ok(None) | Err(_) => false,
    }
}

/// The place with the entities of its statement.
pub(crate) fn place_of(alloc: Global, place: u64, statement: &Statement) -> Sentence {
    let about = Sentence::of(alloc, b"place ")
        .and_number(alloc, place)
        .and(b" (")
        .and(statement.iss.text());
    if statement.iss == statement.sub {
        about.and(b" about itself)")
    } else {
        about.and(b" about ").and(statement.sub.text()).and(b")")
    }
}
