// What is said of an input that isn't what it is to be.

use crate::finding::text_found;
use crate::view::View;
use fed_base::Text;
use file_notes::explain_refused_text;
use plain_notes::{Notes, Sentence};
use std::alloc::Global;

/// Says why the text, of which this was found, isn't what it says, where it isn't.
pub(crate) fn explain_text(alloc: Global, text: &[u8], found: &View, notes: &mut Notes) {
    if found.refused {
        explain_refused_text(alloc, text, notes);
    }
}

/// Says of each text of the chain that isn't what it says why, as if it stood alone.
pub(crate) fn explain_chain(alloc: Global, texts: &[Text], notes: &mut Notes) {
    for (place, text) in texts.iter().enumerate() {
        let Ok(found) = text_found(alloc, text.as_slice()) else {
            return;
        };
        if found.refused {
            notes.say(
                Sentence::of(alloc, b"of the chain, the text at place ")
                    .and_number(alloc, place as u64)
                    .and(b" is read alone:"),
            );
            explain_refused_text(alloc, text.as_slice(), notes);
        }
    }
}
