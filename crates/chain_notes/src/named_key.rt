// The key that a header names.

use fed_base::{Alg, Text};
use jwk_set::JwkSet;
use jws_form::{Compact, algorithm_name};
use plain_notes::Sentence;

/// The key that a header names: by its `kid`, and by the algorithm (RFC 7515 sections 4.1.1 and 4.1.4).
#[derive(Clone, Copy, Drop)]
pub struct NamedKey<'a> {
    pub kid: &'a Text,
    pub alg: Alg,
}

impl<'a> NamedKey<'a> {
    /// The key that the text's header names, or `None` where it has no `kid`.
    pub fn of(compact: &'a Compact) -> Option<NamedKey<'a>> {
        match &compact.kid {
            Some(kid) => Some(NamedKey {
                kid,
                alg: compact.alg,
            }),
            None => None,
        }
    }

    /// The set's own key of that name and algorithm.
    pub fn key_in(&self, set: &JwkSet) -> Option<[u8; 32]> {
        set.key_of(self.kid, self.alg)
    }

    /// Goes on with the algorithm and the name, as in `is signed by the SLH-DSA-SHA2-128s key K`.
    pub fn after(&self, about: Sentence) -> Sentence {
        about
            .and(algorithm_name(self.alg))
            .and(b" key ")
            .and(self.kid.as_slice())
    }

    /// Goes on, where the set has a key of that name under the other algorithm, with what that key is of, and else with this.
    pub fn with_other(&self, about: Sentence, set: &JwkSet, or_else: &[u8]) -> Sentence {
        let other = match self.alg {
            Alg::Small => Alg::Fast,
            Alg::Fast => Alg::Small,
        };
        match set.key_of(self.kid, other) {
            Some(_) => about
                .and(b"; the key of that name there is of ")
                .and(algorithm_name(other)),
            None => about.and(or_else),
        }
    }
}
