// What a person reads of a configuration that isn't read.

ghost use Rattle.fed_json.specs.Forms.{IsWellFormed};

use crate::fault::{Fault, Found, Kind};
use crate::finding::config_fault;
use crate::forms::Form;
use fed_base::Text;
use fed_json::Json;
use plain_notes::{Notes, Sentence};
use std::alloc::Global;

/// Says why no configuration is read of the tree in the file of that name, where none is.
pub fn explain_config(alloc: Global, file: &Text, config: &Json, notes: &mut Notes)
    requires { IsWellFormed config.now }
{
    if let Ok(Some(fault)) = config_fault(alloc, config) {
        notes.say(sentence_of(alloc, file, &fault));
    }
}

fn sentence_of(alloc: Global, file: &Text, fault: &Fault) -> Sentence {
    let begun = Sentence::of(alloc, file.as_slice()).and(b": ");
    let place = fault.place.as_slice();
    match &fault.kind {
        Kind::Missing(form) => with_form(
            alloc,
            begun
                .and(b"the member ")
                .and(place)
                .and(b" is missing; it must be "),
            *form,
        ),
        Kind::Other(form, found) => {
            let said = with_form(alloc, named(begun, place).and(b" must be "), *form);
            with_found(said.and(b", and is "), found)
        }
        Kind::Count(form, count) => {
            let said = with_form(alloc, named(begun, place).and(b" must be "), *form);
            said.and(b", and has ").and_number(alloc, *count)
        }
        Kind::Again(earlier) => begun
            .and(place)
            .and(b" is that of ")
            .and(earlier.as_slice())
            .and(b" again; each stands once"),
        Kind::Itself => begun
            .and(place)
            .and(b" is the node's own, which isn't below itself"),
        Kind::Private => begun.and(place).and(
            b" is the private part of a key; a key set has public keys alone",
        ),
        Kind::Ring => begun.and(place).and(
            b" is a key ring, with secret seeds; fed public --ring writes its key set",
        ),
    }
}

// The place, or the whole configuration.
fn named(begun: Sentence, place: &[u8]) -> Sentence {
    if place.is_empty() {
        begun.and(b"a node's configuration")
    } else {
        begun.and(place)
    }
}

fn with_form(alloc: Global, begun: Sentence, form: Form) -> Sentence {
    let said = begun.and(form.words());
    match form {
        Form::Number(least, most) => said
            .and(b" from ")
            .and_number(alloc, least)
            .and(b" to ")
            .and_number(alloc, most),
        _ => said,
    }
}

fn with_found(begun: Sentence, found: &Found) -> Sentence {
    match found {
        Found::Shown(text) => begun.and(text.as_slice()),
        Found::Odd => begun.and(b"a number with a fraction, an exponent or too many digits"),
        Found::Key => begun.and(b"one key"),
        Found::List => begun.and(b"a list"),
        Found::Object => begun.and(b"an object"),
    }
}
