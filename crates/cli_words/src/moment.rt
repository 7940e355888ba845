// Moments among the words.

ghost use Rattle.std.specs.Prelude.{◌≡◌, ◌<◌, unwrap_or};
ghost use Rattle.fed_base.specs.Moments.{moment_limit};

use std::marker::Model;

/// A moment below 2^62, in seconds since 1970.
#[derive(Clone, Copy, Drop)]
pub struct Moment(u64);

impl Model for Moment {
    ghost use Rattle.std.specs.Prelude.{ℕ, ◌<◌};
    ghost use Rattle.fed_base.specs.Moments.{moment_limit};

    ghost Value = { ℕ };

    ghost view = { λ moment. moment.0 };

    ghost invariant = { λ moment. moment.0 < moment_limit };

    ghost inverse = { λ seconds. record { 0 = seconds } };
}

impl Moment {
    /// The moment of so many seconds.
    pub fn of(seconds: u64) -> Moment
        requires { seconds < moment_limit }
        ensures { result ≡ seconds }
    {
        Moment(seconds)
    }

    /// Its seconds.
    pub fn seconds(self) -> u64
        ensures seconds { result ≡ self }
        ensures small { result < moment_limit }
    {
        self.0
    }
}

/// The moment that the words give, or else this one, in seconds since 1970.
pub fn moment_or(given: Option<Moment>, moment: u64) -> u64
    ensures moment { result ≡ unwrap_or given moment }
    ensures small { moment < moment_limit → result < moment_limit }
{
    match given {
        Some(given) => given.seconds(),
        None => moment,
    }
}
