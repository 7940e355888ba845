// What is wrong with a key of a ring's file.

use fed_base::Text;
use fed_json::{Json, Member, find, text_at};
use key_ring::{RevokeReason, Version, alg_at, moment_at};

/// Why members aren't those of a key of a ring's file, in the order in which they are looked at.
#[derive(Clone, Copy, PartialEq, Eq, Debug, Drop)]
pub enum KeyFault {
    /// `iat` or `exp` is no moment.
    Moments,
    /// `exp` isn't after `iat`.
    Order,
    /// There are no seeds.
    NoSeeds,
    /// The seeds aren't 96 hexadecimal digits in lower case.
    Seeds,
    /// There is no state.
    NoState,
    /// The state isn't live, retired or a revocation.
    State,
    /// There is an `alg`, in a file of version 1.
    OldAlg,
    /// There is no `alg` of the two, in a file of version 2.
    NoAlg,
}

/// What is wrong with a key of a file of that version, where something is.
pub(crate) fn key_fault(version: Option<Version>, members: &[Member]) -> Option<KeyFault> {
    let (Some(iat), Some(exp)) = (moment_at(members, b"iat"), moment_at(members, b"exp")) else {
        return Some(KeyFault::Moments);
    };
    if exp <= iat {
        return Some(KeyFault::Order);
    }
    match text_at(members, b"seeds") {
        Some(seeds) if are_seeds(seeds) => state_fault(version, members),
        Some(_) => Some(KeyFault::Seeds),
        None => Some(KeyFault::NoSeeds),
    }
}

fn are_seeds(seeds: &Text) -> bool {
    seeds.len() == 96 && seeds.as_slice().iter().all(is_lower_hex)
}

fn is_lower_hex(byte: &u8) -> bool {
    byte.is_ascii_digit() || (b'a' <= *byte && *byte <= b'f')
}

fn state_fault(version: Option<Version>, members: &[Member]) -> Option<KeyFault> {
    match find(members, b"state") {
        Some(state) if is_state(state) => alg_fault(version, members),
        Some(_) => Some(KeyFault::State),
        None => Some(KeyFault::NoState),
    }
}

// A key names its algorithm in version 2 alone.
fn alg_fault(version: Option<Version>, members: &[Member]) -> Option<KeyFault> {
    match version {
        Some(Version::First) if find(members, b"alg").is_some() => Some(KeyFault::OldAlg),
        Some(Version::Second) if alg_at(Version::Second, members).is_none() => Some(
            KeyFault::NoAlg,
        ),
        _ => None,
    }
}

fn is_state(state: &Json) -> bool {
    match state {
        Json::Text(word) => word.as_slice() == b"live".as_slice()
            || word.as_slice() == b"retired".as_slice(),
        Json::Object(members) => is_revocation(members.as_slice()),
        _ => false,
    }
}

fn is_revocation(members: &[Member]) -> bool {
    match (
        moment_at(members, b"revoked_at"),
        text_at(members, b"reason"),
    ) {
        (Some(_), Some(reason)) => RevokeReason::of_word(reason.as_slice()).is_some(),
        _ => false,
    }
}

/// Whether the members are those of a live key.
pub(crate) fn is_live(members: &[Member]) -> bool {
    match text_at(members, b"state") {
        Some(state) => state.as_slice() == b"live".as_slice(),
        None => false,
    }
}
