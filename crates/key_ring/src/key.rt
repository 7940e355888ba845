// A key of a ring, as its file has it.

ghost use Rattle.std.specs.Prelude.{◌≡◌, ◌<◌, not};
ghost use Rattle.fed_base.specs.Moments.{moment_limit};
ghost use Rattle.key_ring.specs.Changes.{fresh_key, may_follow};
ghost use Rattle.key_ring.specs.Rings.{IsRingKey, live_state, revoked_state};

use fed_base::Alg;

/// Why a key was revoked (OpenID Federation 1.0 section 8.7.3).
#[derive(Clone, Copy, Debug, PartialEq, Eq, Drop)]
pub enum RevokeReason {
    /// No reason is told.
    Unspecified,
    /// The private key is known to others, or may be.
    Compromised,
    /// Another key stands in its place.
    Superseded,
}

impl RevokeReason {
    ghost use Rattle.std.specs.Prelude.{◌≡◌};
    ghost use Rattle.key_ring.specs.Files.{reason_word};
    ghost use Rattle.key_ring.specs.Readings.{reason_in};

    /// The reason of a word, `unspecified`, `compromised` or `superseded`, or `None`.
    pub fn of_word(word: &[u8]) -> Option<RevokeReason>
        ensures { result ≡ reason_in word.now }
    {
        if word == b"unspecified".as_slice() {
            Some(RevokeReason::Unspecified)
        } else if word == b"compromised".as_slice() {
            Some(RevokeReason::Compromised)
        } else if word == b"superseded".as_slice() {
            Some(RevokeReason::Superseded)
        } else {
            None
        }
    }

    /// The word of the reason, which [`RevokeReason::of_word`] reads.
    pub fn word(self) -> &'static [u8]
        ensures { result.now ≡ reason_word self }
    {
        match self {
            RevokeReason::Unspecified => b"unspecified",
            RevokeReason::Compromised => b"compromised",
            RevokeReason::Superseded => b"superseded",
        }
    }
}

/// What a key of a ring is for.
#[derive(Clone, Copy, Debug, PartialEq, Eq, Drop)]
pub enum KeyState {
    /// It may sign, and is published as the node's key.
    Live,
    /// It signs no more; what it signed stays good.
    Retired,
    /// It signs no more, and what it signed isn't to be trusted.
    Revoked {
        /// Since when, in seconds since 1970.
        at: u64,
        /// Why.
        reason: RevokeReason,
    },
}

/// A key of a ring.
#[derive(Clone, Copy, Drop)]
pub struct RingKey {
    /// The algorithm of its signatures.
    pub alg: Alg,
    /// SK.seed, SK.prf and PK.seed, 16 bytes each (FIPS 205 section 9.1).
    pub seeds: [u8; 48],
    /// When it was made, in seconds since 1970.
    pub iat: u64,
    /// When it ends, in seconds since 1970.
    pub exp: u64,
    pub state: KeyState,
}

/// A new key, which is live.
pub(crate) fn fresh_key(alg: Alg, seeds: [u8; 48], at: u64, exp: u64) -> RingKey
    requires order { at < exp }
    requires small { exp < moment_limit }
    ensures is { result ≡ fresh_key alg seeds at exp }
    ensures formed { IsRingKey result }
{
    RingKey {
        alg,
        seeds,
        iat: at,
        exp,
        state: KeyState::Live,
    }
}

/// Whether a key in this state signs.
pub(crate) fn is_live_state(state: KeyState) -> bool
    ensures { result ≡ live_state state }
{
    matches!(state, KeyState::Live)
}

/// Whether a key in this state isn't to be trusted.
pub(crate) fn is_revoked_state(state: KeyState) -> bool
    ensures { result ≡ revoked_state state }
{
    matches!(state, KeyState::Revoked { .. })
}

/// Whether a key in the old state may be put in the new one: a live key retires, and a key that isn't revoked is revoked.
pub(crate) fn may_follow(new: KeyState, old: KeyState) -> bool
    ensures { result ≡ may_follow new old }
{
    match new {
        KeyState::Live => false,
        KeyState::Retired => is_live_state(old),
        KeyState::Revoked { .. } => !is_revoked_state(old),
    }
}
