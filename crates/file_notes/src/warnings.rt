// Moments that look wrong in what is accepted.

use fed_json::{Json, object_members};
use plain_notes::{Notes, Sentence, warn_of_moment};
use ring_faults::moment_at;
use std::alloc::Global;

/// Says which moments look wrong in claims that are sealed.
pub fn warn_of_claims(alloc: Global, claims: &Json, notes: &mut Notes) {
    let members = object_members(claims);
    let (iat, exp) = (moment_at(members, b"iat"), moment_at(members, b"exp"));
    if let Some(iat) = iat {
        warn_of_moment(alloc, b"the claim iat", iat, notes);
    }
    if let Some(exp) = exp {
        warn_of_moment(alloc, b"the claim exp", exp, notes);
        warn_of_end(alloc, iat.unwrap_or(0), exp, notes);
    }
}

fn warn_of_end(alloc: Global, iat: u64, exp: u64, notes: &mut Notes) {
    let about = Sentence::of(alloc, b"warning: the claim exp ").and_moment(alloc, exp);
    if exp <= iat {
        notes.say(about.and(b" isn't after iat ").and_moment(alloc, iat));
    } else if notes.moment().is_some_and(|moment| exp <= moment) {
        notes.say(about.and(b" is in the past"));
    }
}
