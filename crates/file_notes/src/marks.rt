// Claims that make no trust mark.

use plain_notes::{Notes, Sentence};
use std::alloc::Global;
use trust_mark::MarkFault;

/// Says why claims with this fault aren't those of a trust mark or of a delegation.
pub fn explain_mark_claims(alloc: Global, fault: &MarkFault, notes: &mut Notes) {
    match fault {
        MarkFault::Missing(claim) => notes.say(about_claim(alloc, claim.as_slice()).and(
            b" is missing",
        )),
        MarkFault::Shape(claim) => notes.say(
            about_claim(alloc, claim.as_slice())
                .and(b" isn't ")
                .and(form_of(claim.as_slice()))
                .and(b" (Shape)"),
        ),
        MarkFault::Typ | MarkFault::Tree | MarkFault::Memory => {},
    }
}

fn about_claim(alloc: Global, claim: &[u8]) -> Sentence {
    Sentence::of(alloc, b"standard input: the claim ").and(claim)
}

// The form of a claim of a mark, of a delegation or of a status.
fn form_of(claim: &[u8]) -> &'static [u8] {
    match std::str::from_utf8(claim) {
        Ok("iss" | "sub") =>
            b"an identifier: a URL of https or http without query, fragment and user",
        Ok("iat" | "exp") => b"a whole number from 0 to 2^62 - 1, in seconds since 1970",
        Ok("status") => b"active, expired, revoked or invalid",
        _ => b"a text",
    }
}
