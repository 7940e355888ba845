// What links the statements of a chain: names and signatures.

use crate::difference::difference_of;
use crate::named_key::NamedKey;
use entity_id::EntityId;
use entity_statement::{SignedStatement, Statement};
use jwk_set::JwkSet;
use plain_notes::{Notes, Sentence};
use std::alloc::Global;

/// Says why the statement at the place isn't the one that the chain needs there.
pub(crate) fn explain_names(
    alloc: Global,
    entries: &[SignedStatement],
    anchor: &EntityId,
    place: u64,
    about: Sentence,
    notes: &mut Notes,
) {
    if entries.len() == 2 {
        drop(about);
        notes.say(Sentence::of(
            alloc,
            b"a chain has 1 text, or 3 and more: between the configurations of leaf and anchor stand statements",
        ));
    } else if let Some(entry) = entries.get(place as usize) {
        notes.say(match issuer_below(entries, place) {
            Some(issuer) if entry.statement.sub != *issuer => {
                link_sentence(about, &entry.statement.sub, issuer)
            }
            _ => {
                let ends = (place as usize).saturating_add(1) == entries.len();
                role_sentence(alloc, about, place, ends, anchor, &entry.statement)
            }
        });
    } else {
        drop(about);
    }
}

// Whom the statement is about, and who says so below.
fn link_sentence(about: Sentence, sub: &EntityId, issuer: &EntityId) -> Sentence {
    about
        .and(b" is about ")
        .and(sub.text())
        .and(b"; the text before it is by ")
        .and(issuer.text())
        .and(difference_of(issuer, sub))
}

// The issuer of the text before the place.
fn issuer_below(entries: &[SignedStatement], place: u64) -> Option<&EntityId> {
    if place == 0 {
        return None;
    }
    match entries.get(place as usize - 1) {
        Some(below) => Some(&below.statement.iss),
        None => None,
    }
}

// What the statement isn't, at the end of the chain or before it.
fn role_sentence(
    alloc: Global,
    about: Sentence,
    place: u64,
    ends: bool,
    anchor: &EntityId,
    statement: &Statement,
) -> Sentence {
    let own = statement.iss == statement.sub;
    if own && ends {
        Sentence::of(alloc, b"the chain ends at ")
            .and(statement.iss.text())
            .and(b", asked was ")
            .and(anchor.text())
            .and(difference_of(anchor, &statement.iss))
    } else {
        about.and(role_fault(place, own, ends))
    }
}

fn role_fault(place: u64, own: bool, ends: bool) -> &'static [u8] {
    if ends {
        b": a chain ends with the configuration of the anchor"
    } else if place == 0 {
        b": a chain begins with the configuration of the leaf"
    } else if own {
        b": a configuration stands between the ends of the chain"
    } else {
        b": its issuer stands in the chain before it"
    }
}

/// Says by which key the text at the place isn't signed.
pub(crate) fn explain_signature(
    entries: &[SignedStatement],
    keys: &JwkSet,
    place: u64,
    about: Sentence,
    notes: &mut Notes,
) {
    let Some(entry) = entries.get(place as usize) else {
        drop(about);
        return;
    };
    let own = &entry.statement.jwks;
    notes.say(match NamedKey::of(&entry.compact) {
        None => about.and(b": the header has no kid, the name of the key that signed"),
        Some(named) if place == 0 && named.key_in(own).is_none() => named.with_other(
            named
                .after(about.and(b" is signed by the "))
                .and(b", which isn't in its own jwks"),
            own,
            b"",
        ),
        Some(named) if place == 0 && superior_key(entries, &named) => named
            .after(about.and(b": the signature doesn't verify under the "))
            .and(b" both of its own jwks and of the jwks of the next text"),
        Some(named) => signer_sentence(about, &named, entries, place, keys),
    });
}

// The text above the leaf's has this key too.
fn superior_key(entries: &[SignedStatement], named: &NamedKey<'_>) -> bool {
    match entries.get(1) {
        Some(above) => named.key_in(&above.statement.jwks).is_some(),
        None => false,
    }
}

// What became of this key, which is looked for above the place.
fn signer_sentence(
    about: Sentence,
    named: &NamedKey<'_>,
    entries: &[SignedStatement],
    place: u64,
    keys: &JwkSet,
) -> Sentence {
    match entries.get((place as usize).saturating_add(1)) {
        Some(above) => stated_sentence(about, named, &above.statement),
        None => key_sentence(about, named, keys),
    }
}

// What became of the key among those that the next text states.
fn stated_sentence(about: Sentence, named: &NamedKey<'_>, above: &Statement) -> Sentence {
    if named.key_in(&above.jwks).is_some() {
        named
            .after(about.and(b": the signature doesn't verify under the "))
            .and(b" in the jwks of the next text")
    } else {
        let sentence = named
            .after(about.and(b": the "))
            .and(b" isn't among the keys that ")
            .and(above.iss.text())
            .and(b" states of ");
        let sentence = if above.iss == above.sub {
            sentence.and(b"itself")
        } else {
            sentence.and(above.sub.text())
        };
        named.with_other(sentence, &above.jwks, b"; is a rotation half done?")
    }
}

// What became of it among the anchor's keys.
fn key_sentence(about: Sentence, named: &NamedKey<'_>, keys: &JwkSet) -> Sentence {
    if named.key_in(keys).is_some() {
        named
            .after(about.and(b": the signature doesn't verify under the "))
            .and(b" among the anchor's keys")
    } else {
        named.with_other(
            named
                .after(about.and(b": there is no "))
                .and(b" among the anchor's keys"),
            keys,
            b"",
        )
    }
}
