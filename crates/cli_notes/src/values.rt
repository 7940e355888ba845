// Values of options that are out of form.

use cli_help::{Form, OptionName};
use cli_words::{CONNECTIONS, PORTS, TextType, WORKERS, alg_of, count_of, moment_of, params_of};
use entity_id::{EntityId, IdFault};
use plain_notes::{Notes, Sentence};
use ring_faults::RevokeReason;
use std::alloc::Global;

/// Says what the option takes where the value isn't one of its. It answers whether it isn't.
pub(crate) fn explain_value(
    alloc: Global,
    name: OptionName,
    value: &[u8],
    notes: &mut Notes,
) -> bool {
    let taken = taken_in_place_of(alloc, name, value);
    if taken.is_empty() {
        return false;
    }
    let sentence = Sentence::of(alloc, name.word())
        .and(b" takes ")
        .and(taken)
        .and(b", and not ")
        .and(value);
    notes.say(match name.form() {
        Form::Moment => with_date(sentence, value),
        _ => sentence,
    });
    true
}

// Behind a moment that isn't in seconds: how the system gives it.
fn with_date(sentence: Sentence, value: &[u8]) -> Sentence {
    if value == b"now".as_slice() {
        sentence.and(b"; date +%s gives the present one")
    } else if is_date(value) {
        sentence.and(b"; date -d ").and(value).and(b" +%s gives it")
    } else {
        sentence
    }
}

// Whether the value is written as a date is, from the year on: 2026-11-30, or 2026-11-30T12:00:00Z.
fn is_date(value: &[u8]) -> bool {
    value.len() >= 10
        && value.get(4).is_some_and(|byte| *byte == b'-')
        && value
            .iter()
            .all(|byte| byte.is_ascii_digit() || b"-:TZ".contains(byte))
}

// What the option takes, where the value isn't such a one, and else nothing.
fn taken_in_place_of(alloc: Global, name: OptionName, value: &[u8]) -> &'static [u8] {
    match name.form() {
        Form::Word => b"",
        Form::Moment => unless(
            moment_of(value).is_some(),
            b"a moment in seconds since 1970, below 2^62, in decimal digits without sign and leading zero",
        ),
        Form::Connections => unless(
            count_of(value, CONNECTIONS).is_some(),
            b"a number from 1 to 1,000,000",
        ),
        Form::Params => unless(params_of(value).is_some(), b"a number from 0 to 200"),
        Form::Port => unless(
            count_of(value, PORTS).is_some(),
            b"a number from 1 to 65535",
        ),
        Form::Workers => unless(count_of(value, WORKERS).is_some(), b"a number from 1 to 16"),
        Form::Identifier => taken_as_identifier(alloc, value),
        Form::TextType => unless(
            TextType::of(value).is_some(),
            b"entity-statement+jwt, trust-mark+jwt or trust-mark-delegation+jwt",
        ),
        Form::Act => unless(is_act(value), b"add, retire or revoke"),
        Form::Alg => unless(
            alg_of(value).is_some(),
            b"128s (SLH-DSA-SHA2-128s, small signatures) or 128f (SLH-DSA-SHA2-128f, fast ones)",
        ),
        Form::Reason => unless(
            RevokeReason::of_word(value).is_some(),
            b"unspecified, compromised or superseded",
        ),
        Form::Yes => unless(value == b"yes".as_slice(), b"yes"),
    }
}

fn unless(holds: bool, taken: &'static [u8]) -> &'static [u8] {
    if holds { b"" } else { taken }
}

fn taken_as_identifier(alloc: Global, value: &[u8]) -> &'static [u8] {
    match EntityId::read(alloc, value) {
        Ok(_) | Err(IdFault::Memory) => b"",
        Err(IdFault::NotUrl) => b"a URL of at most 2,048 bytes, without spaces and backslashes",
        Err(IdFault::Scheme) => b"a URL that begins with https:// or http://",
        Err(IdFault::Extra) => b"a URL without query, fragment and user",
    }
}

fn is_act(value: &[u8]) -> bool {
    value == b"add".as_slice() || value == b"retire".as_slice() || value == b"revoke".as_slice()
}
