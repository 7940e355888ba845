// What stands behind `verify` in the place of a public key.

use base64url::decode_32;
use fed_base::Text;
use plain_notes::{Notes, Sentence};
use std::alloc::Global;

/// Says why the words behind `verify` aren't one public key.
pub(crate) fn explain_verify(alloc: Global, rest: &[Text], notes: &mut Notes) {
    match rest {
        [] => notes.say(Sentence::of(alloc, b"verify needs a public key: 43 base64url characters")),
        [key] => if decode_32(key.as_slice()).is_none() {
            explain_key(alloc, key.as_slice(), notes);
        },
        [key, text, ..] => explain_more(alloc, key.as_slice(), text.as_slice(), notes),
    }
}

// Behind the key stands one word more, which may be the file of the text.
fn explain_more(alloc: Global, key: &[u8], text: &[u8], notes: &mut Notes) {
    notes.say(if decode_32(key).is_some() && is_file(text) {
        Sentence::of(alloc, b"verify reads standard input: fed verify ")
            .and(key)
            .and(b" < ")
            .and(text)
    } else {
        Sentence::of(alloc, b"verify takes one word, the public key; ")
            .and(text)
            .and(b" is one too many")
    });
}

// Says what the word is that is no public key.
fn explain_key(alloc: Global, key: &[u8], notes: &mut Notes) {
    let about = Sentence::of(alloc, b"the word behind verify isn't a public key: it ");
    let meant = meant_by(key);
    notes.say(if meant.is_empty() {
        about
            .and(b"has ")
            .and_number(alloc, key.len() as u64)
            .and(b" bytes; a public key is 43 base64url characters")
    } else {
        about.and(meant)
    });
}

// What the word is instead, and what to do then, or nothing.
fn meant_by(key: &[u8]) -> &'static [u8] {
    if key.starts_with(b"{") {
        b"is JSON; of a JSON Web Key verify takes the member pub alone, as jq -r .pub writes it"
    } else if key.starts_with(b"eyJ") {
        b"is a signed text, which stands on standard input; the word is the public key of its signer"
    } else if key.ends_with(b"=") {
        b"has padding; leave away each = at its end"
    } else if key.contains(&b'+') || is_standard(key) {
        b"is in another alphabet of base64; base64url has - for + and _ for /"
    } else if is_file(key) {
        b"looks like a file; verify takes the key itself, the member pub of a JSON Web Key, as jq -r .pub writes it"
    } else {
        b""
    }
}

// Whether the word is as long as a public key, and has a slash.
fn is_standard(key: &[u8]) -> bool {
    key.len() == 43 && key.contains(&b'/')
}

// Whether the word looks like the name of a file: a full stop or a slash stands in no base64url.
fn is_file(word: &[u8]) -> bool {
    word.contains(&b'.') || word.contains(&b'/')
}
