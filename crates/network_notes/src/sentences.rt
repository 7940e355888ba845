// What a person reads of calls of the network that failed.

use crate::failures::{Failure, Failures, Reason};
use fed_ports::Address;
use plain_notes::{Notes, Sentence};
use std::alloc::Global;

/// Says of each call of the network that failed at which address, and the system's reason.
pub fn explain_failures(alloc: Global, failures: &Failures, notes: &mut Notes) {
    for failure in failures.as_slice() {
        if let Some(failure) = failure {
            notes.say(failure_sentence(alloc, failure));
        }
    }
}

fn failure_sentence(alloc: Global, failure: &Failure) -> Sentence {
    let said = with_address(alloc, Sentence::of(alloc, b""), &failure.at)
        .and(b": ")
        .and(failure.reason.as_str().as_bytes());
    match failure.reason {
        Reason::Forbidden if failure.at.port < 1024 => {
            said.and(b"; ports below 1024 want rights of their own")
        }
        _ => said,
    }
}

// An address, as 127.0.0.1:8080.
fn with_address(alloc: Global, sentence: Sentence, address: &Address) -> Sentence {
    let [a, b, c, d] = address.ip;
    sentence
        .and_number(alloc, u64::from(a))
        .and(b".")
        .and_number(alloc, u64::from(b))
        .and(b".")
        .and_number(alloc, u64::from(c))
        .and(b".")
        .and_number(alloc, u64::from(d))
        .and(b":")
        .and_number(alloc, u64::from(address.port))
}
