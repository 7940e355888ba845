// What looks wrong in claims that are accepted.

use crate::claims::meant_by;
use crate::keys::has_key;
use fed_base::Text;
use fed_json::{Json, Member, find, object_members, text_at};
use plain_notes::{Notes, Sentence};
use std::alloc::Global;

/// Says what looks wrong in claims of an entity statement that are sealed: names that look like those of claims, and a signer of this name
/// that isn't among the keys of a configuration.
pub fn warn_of_statement(alloc: Global, claims: &Json, kid: &Text, notes: &mut Notes) {
    let members = object_members(claims);
    warn_of_signer(alloc, members, kid, notes);
    for member in members {
        warn_of_name(alloc, member.name.as_slice(), notes);
    }
}

// A configuration is signed by a key that it has itself.
fn warn_of_signer(alloc: Global, members: &[Member], kid: &Text, notes: &mut Notes) {
    let Some(set) = find(members, b"jwks") else {
        return;
    };
    if is_configuration(members) && !has_key(set, kid.as_slice()) {
        notes.say(
            Sentence::of(alloc, b"warning: the signing key ")
                .and(kid.as_slice())
                .and(b" isn't in the claims' jwks, so no one can check the text by them"),
        );
    }
}

// Whether the claims are by an entity about itself.
fn is_configuration(members: &[Member]) -> bool {
    match (text_at(members, b"iss"), text_at(members, b"sub")) {
        (Some(iss), Some(sub)) => iss.as_slice() == sub.as_slice(),
        _ => false,
    }
}

fn warn_of_name(alloc: Global, name: &[u8], notes: &mut Notes) {
    if let Some(meant) = meant_by(name) {
        notes.say(
            Sentence::of(alloc, b"warning: the claim ")
                .and(name)
                .and(b" isn't known and is kept as it is; did you mean ")
                .and(meant.as_bytes())
                .and(b"?"),
        );
    }
}
