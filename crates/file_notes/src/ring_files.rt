// Ring files out of form, and rings whose keys have ended.

use fed_base::Text;
use plain_notes::{Notes, Sentence};
use ring_faults::{FileFault, KeyFault, KeyState, KeyTerm};
use std::alloc::Global;

/// Says behind `about` what is wrong with a ring's file.
pub(crate) fn ring_sentence(alloc: Global, about: Sentence, fault: &FileFault) -> Sentence {
    match fault {
        FileFault::Count(keys) => about
            .and(b" has ")
            .and_number(alloc, *keys)
            .and(b" keys; a ring has 1 to 16"),
        FileFault::Key(place, fault) => about
            .and(b": key ")
            .and_number(alloc, *place)
            .and(key_words(*fault)),
        FileFault::NoVersion => about.and(b" has no version, 1 or 2"),
        FileFault::NoLive => about.and(b" has no live key"),
        FileFault::Other => about.and(b" has one key twice, or a member that isn't a ring's"),
        _ => about.and(b" isn't a ring's file, {\"keys\":[..],\"version\":2}"),
    }
}

fn key_words(fault: KeyFault) -> &'static [u8] {
    match fault {
        KeyFault::Moments => b" has no iat or no exp, moments in seconds since 1970",
        KeyFault::Order => b" has an exp that isn't after its iat",
        KeyFault::NoSeeds => b" has no seeds",
        KeyFault::Seeds => b" has seeds that aren't 96 hexadecimal digits in lower case",
        KeyFault::NoState => b" has no state",
        KeyFault::State => b" has a state that isn't live, retired or a revocation",
        KeyFault::OldAlg => b" has an alg, which a ring's file has from version 2 on",
        KeyFault::NoAlg => b" has no alg, SLH-DSA-SHA2-128s or SLH-DSA-SHA2-128f",
    }
}

/// Says that a change writes a file of another version than the ring had.
pub fn explain_migration(alloc: Global, name: &Text, notes: &mut Notes) {
    notes.say(
        Sentence::of(alloc, b"the change writes ")
            .and(name.as_slice())
            .and(b" in version 2, which programs before this one don't read"),
    );
}

/// Says where the signer of the ring with these keys, the first live one, has ended at the moment of the notes.
pub fn warn_of_ended_signer(alloc: Global, name: &Text, keys: &[KeyTerm], notes: &mut Notes) {
    if let Some(signer) = keys.iter().find(|key| signs(key)) {
        warn_of_end(alloc, name, signer.exp, notes);
    }
}

fn signs(key: &KeyTerm) -> bool {
    matches!(key.state, KeyState::Live)
}

fn warn_of_end(alloc: Global, name: &Text, exp: u64, notes: &mut Notes) {
    if notes.moment().is_some_and(|moment| exp <= moment) {
        notes.say(
            Sentence::of(alloc, b"warning: the signing key of ")
                .and(name.as_slice())
                .and(b" ended at ")
                .and_moment(alloc, exp),
        );
    }
}
