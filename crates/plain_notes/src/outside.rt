// What the outside did.

use crate::notes::Notes;
use crate::sentence::Sentence;
use fed_base::Text;
use std::alloc::Global;

/// Says that the input couldn't be read.
pub fn explain_source(alloc: Global, notes: &mut Notes) {
    notes.say(Sentence::of(alloc, b"standard input can't be read"));
}

/// Says that the output couldn't be written.
pub fn explain_sink(alloc: Global, notes: &mut Notes) {
    notes.say(Sentence::of(
        alloc,
        b"standard output can't be written to its end; is the disk full, or the reader gone?",
    ));
}

/// Says that the file couldn't be read.
pub fn explain_unread_file(alloc: Global, name: &Text, notes: &mut Notes) {
    notes.say(Sentence::of(alloc, name.as_slice()).and(b" can't be read"));
}

/// Says that the file couldn't be kept.
pub fn explain_unkept_file(alloc: Global, name: &Text, notes: &mut Notes) {
    notes.say(Sentence::of(alloc, name.as_slice()).and(b" can't be kept"));
}

/// Says that memory was wanting, where there is enough to say it.
pub fn explain_memory(alloc: Global, notes: &mut Notes) {
    notes.say(Sentence::of(alloc, b"memory was wanting"));
}

/// Says that a counter of calls is at its end.
pub fn explain_worn(alloc: Global, notes: &mut Notes) {
    notes.say(Sentence::of(alloc, b"a counter of calls is at its end"));
}
