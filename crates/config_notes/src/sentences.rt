// One sentence a warning.

use crate::names::meant_by;
use config_warnings::{Kind, Part, Warning};
use fed_base::Text;
use plain_notes::{Notes, Sentence};
use policy_merge::Operator;
use std::alloc::Global;

/// Says what is warned of the configuration file of that name, one sentence a warning.
pub fn say_warnings(alloc: Global, file: &Text, warned: &[Warning], notes: &mut Notes) {
    for warning in warned {
        notes.say(sentence_of(alloc, file, warning));
    }
}

fn sentence_of(alloc: Global, file: &Text, warning: &Warning) -> Sentence {
    let begun = Sentence::of(alloc, b"warning: ")
        .and(file.as_slice())
        .and(b": ");
    let place = warning.place.as_slice();
    let name = warning.name.as_slice();
    match warning.kind {
        Kind::Unknown(part) => unknown(at(begun, place), part, name),
        Kind::Twice => begun
            .and(b"the member ")
            .and(name)
            .and(b" stands twice; the last counts"),
        Kind::Clash(first, second) => clash(at(begun, place), first, second),
        Kind::NoKey => begun.and(place).and(
            b" has no key of an algorithm that is verified here, so each chain through it is refused",
        ),
        Kind::NoRoute => begun
            .and(b"no route leads to ")
            .and(name)
            .and(b", the host of ")
            .and(place),
        Kind::NoHost => at(begun, place).and(b"no URL has the host ").and(name).and(
            b"; a host has neither scheme nor port, and is in lower case, as ta.example",
        ),
        Kind::Second => begun
            .and(place)
            .and(b" is never taken, since an earlier route has the host ")
            .and(name),
        Kind::Ended => begun
            .and(b"the key that signs, ")
            .and(name)
            .and(b", has ended"),
    }
}

// The place, where it isn't the whole configuration.
fn at(begun: Sentence, place: &[u8]) -> Sentence {
    if place.is_empty() {
        begun
    } else {
        begun.and(place).and(b": ")
    }
}

fn unknown(begun: Sentence, part: Part, name: &[u8]) -> Sentence {
    let what: &[u8] = match part {
        Part::Operators => b"the operator ",
        _ => b"the member ",
    };
    let said = begun
        .and(what)
        .and(name)
        .and(b" isn't known and is left unread");
    match meant_by(part, name) {
        Some(meant) => said.and(b"; did you mean ").and(meant.as_bytes()).and(b"?"),
        None => said,
    }
}

fn clash(begun: Sentence, first: Operator, second: Operator) -> Sentence {
    begun
        .and(first.name().as_bytes())
        .and(b" and ")
        .and(second.name().as_bytes())
        .and(b" don't stand together, so each chain through it is refused")
}
