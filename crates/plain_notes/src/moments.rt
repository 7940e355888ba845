// Moments that look wrong.

use crate::notes::Notes;
use crate::sentence::Sentence;
use std::alloc::Global;

// From here on a number of seconds since 1970 looks like one of milliseconds. It is a moment of the year 5138.
const LOOKS_LIKE_MILLISECONDS: u64 = 100_000_000_000;

/// Says where the moment that the option or the claim gives looks like one in milliseconds.
pub fn warn_of_moment(alloc: Global, name: &[u8], moment: u64, notes: &mut Notes) {
    if LOOKS_LIKE_MILLISECONDS <= moment {
        notes.say(
            Sentence::of(alloc, b"warning: ")
                .and(name)
                .and(b" ")
                .and_moment(alloc, moment)
                .and(b" looks like milliseconds; moments are in seconds"),
        );
    }
}
