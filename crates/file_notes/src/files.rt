// Files that are named.

use crate::ring_files::ring_sentence;
use fed_base::Text;
use fed_json::{TreeFault, read_tree};
use plain_notes::{Notes, Sentence};
use ring_faults::{FileFault, TextFault, text_fault};
use statement_notes::explain_key_set;
use std::alloc::Global;

fn named(alloc: Global, name: &Text) -> Sentence {
    if name.is_empty() {
        Sentence::of(alloc, b"the file \"\"")
    } else {
        Sentence::of(alloc, name.as_slice())
    }
}

/// Says that there is no file of that name.
pub fn explain_absent_file(alloc: Global, name: &Text, notes: &mut Notes) {
    notes.say(named(alloc, name).and(b" isn't there"));
}

/// Says that the file is too long.
pub fn explain_long_file(alloc: Global, name: &Text, notes: &mut Notes) {
    notes.say(named(alloc, name).and(b" has more than 4,194,304 bytes"));
}

/// Says that the file of a new ring is there already.
pub fn explain_existing_file(alloc: Global, name: &Text, notes: &mut Notes) {
    notes.say(named(alloc, name).and(
        b" is there already; keygen makes a new file and changes none",
    ));
}

/// Says why the file isn't that of a key set.
pub fn explain_keys_file(alloc: Global, name: &Text, file: &[u8], notes: &mut Notes) {
    match read_tree(alloc, file) {
        Ok(tree) => explain_key_set(alloc, named(alloc, name), &tree, notes),
        Err(TreeFault::Syntax) => notes.say(named(alloc, name).and(syntax_fault(file))),
        Err(TreeFault::Memory) => {},
    }
}

/// Says why standard input isn't that of a key set.
pub fn explain_keys_input(alloc: Global, input: &[u8], notes: &mut Notes) {
    if let Ok(name) = Text::of(alloc, b"standard input") {
        explain_keys_file(alloc, &name, input, notes);
    }
}

/// Says why the file isn't that of a ring.
pub fn explain_ring_file(alloc: Global, name: &Text, fault: &FileFault, notes: &mut Notes) {
    match fault {
        FileFault::Memory => {},
        FileFault::Text(kind) => notes.say(named(alloc, name).and(text_words(*kind))),
        _ => notes.say(ring_sentence(alloc, named(alloc, name), fault)),
    }
}

/// What is wrong with bytes that aren't JSON.
pub(crate) fn syntax_fault(bytes: &[u8]) -> &'static [u8] {
    text_words(text_fault(bytes))
}

fn text_words(kind: TextFault) -> &'static [u8] {
    match kind {
        TextFault::Empty => b" is empty",
        TextFault::SignedText => b" is a signed text and not JSON",
        TextFault::Marked => b" isn't JSON: it begins with a byte order mark",
        TextFault::Syntax => b" isn't JSON",
    }
}
