// What a person reads of a signed text that isn't what its type says.

use crate::marks::explain_mark_claims;
use jws_form::{Compact, split};
use plain_notes::{Notes, Sentence};
use statement_notes::explain_verify;
use std::alloc::Global;
use trust_mark::{
    DELEGATION_TYPE, MARK_TYPE, Mark, MarkFault, STATUS_TYPE, StatusAnswer, read_delegation,
};

/// Says that the claims are of another kind than an object.
pub fn explain_other_claims(alloc: Global, notes: &mut Notes) {
    notes.say(Sentence::of(alloc, b"standard input: the claims aren't a JSON object"));
}

/// Says of the text on standard input why it isn't what its type says: a trust mark, a delegation, a status, or an entity statement.
pub fn explain_refused_text(alloc: Global, text: &[u8], notes: &mut Notes) {
    match mark_fault(alloc, text) {
        Some(MarkFault::Tree) => explain_other_claims(alloc, notes),
        Some(fault) => explain_mark_claims(alloc, &fault, notes),
        None => explain_verify(alloc, None, text, notes),
    }
}

// What is wrong with a trust mark, a delegation or a status, by its type.
fn mark_fault(alloc: Global, text: &[u8]) -> Option<MarkFault> {
    match split(alloc, text) {
        Ok(compact) => {
            let fault = claims_fault(alloc, &compact);
            drop(compact);
            fault
        }
        Err(_) => None,
    }
}

fn claims_fault(alloc: Global, compact: &Compact) -> Option<MarkFault> {
    let typ = compact.typ.as_ref()?.as_slice();
    if typ == MARK_TYPE {
        Mark::read(alloc, compact).err()
    } else if typ == DELEGATION_TYPE {
        read_delegation(alloc, compact).err()
    } else if typ == STATUS_TYPE {
        StatusAnswer::read(alloc, compact).err()
    } else {
        None
    }
}
