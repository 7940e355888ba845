// How long the exchanges of one network take in all.

ghost use Rattle.std.specs.Prelude.{◌≤◌, IfSome};

use std::str;
use std::time::{Clock as SystemClock, Duration, Instant};

/// How many seconds the exchanges of one network take in all, where nothing else is set.
pub const FETCH_SECONDS: u64 = 30;

// In how many seconds an exchange has to be done.
const EXCHANGE: u64 = 10;

// The most that can be set: an hour.
const MOST_SECONDS: u64 = 3600;

/// The number of seconds that the text names: 1 to 3600 in decimal, without a sign or leading zeros.
pub fn fetch_seconds(text: &[u8]) -> Option<u64>
    ensures { IfSome result (λ n. (1 ≤ n) × (n ≤ 3600)) }
{
    let first = text.first()?;
    if !first.is_ascii_digit() || *first == b'0' {
        return None;
    }
    let seconds: u64 = str::from_utf8(text).ok()?.parse().ok()?;
    if seconds >= 1 && seconds <= MOST_SECONDS {
        Some(seconds)
    } else {
        None
    }
}

/// What is left of so much time since then. `None` where nothing is left, and where the system's clock failed.
pub fn left<R: SystemClock>(rt: &R, since: Option<Instant>, time: Duration) -> Option<Duration> {
    let spent = since?.elapsed(rt).ok()?;
    let left = time.checked_sub(spent)?;
    if left.is_zero() { None } else { Some(left) }
}

/// The time of a network's exchanges: how much all of them have, how much is gone of it, and when the one that is open was opened.
#[derive(Drop)]
pub struct FetchTime {
    all: Duration,
    gone: Duration,
    opened: Option<Instant>,
}

impl FetchTime {
    /// So many seconds for all, of which nothing is gone.
    pub fn of_seconds(seconds: u64) -> FetchTime {
        FetchTime {
            all: Duration::from_secs(seconds),
            gone: Duration::ZERO,
            opened: None,
        }
    }

    /// As much for all, of which nothing is gone.
    pub fn anew(&self) -> FetchTime {
        FetchTime {
            all: self.all,
            gone: Duration::ZERO,
            opened: None,
        }
    }

    /// An exchange is opened now. One that is still open is over.
    pub fn begin<R: SystemClock>(&mut self, rt: &R) {
        self.end(rt);
        self.opened = Instant::now(rt).ok();
    }

    /// The open exchange is over, where there is one: what it took is gone.
    pub fn end<R: SystemClock>(&mut self, rt: &R) {
        if let Some(opened) = self.opened {
            let took = opened.elapsed(rt).unwrap_or(Duration::ZERO);
            self.gone = self.gone.saturating_add(took);
        }
        self.opened = None;
    }

    /// What is left for the open exchange. `None` where nothing is left, and where the system's clock failed.
    pub fn left<R: SystemClock>(&self, rt: &R) -> Option<Duration> {
        let all = self.all.saturating_sub(self.gone);
        left(rt, self.opened, all.min(Duration::from_secs(EXCHANGE)))
    }

    /// Whether the time of all is over: nothing is left of it, or the system's clock failed.
    pub fn is_over<R: SystemClock>(&self, rt: &R) -> bool {
        left(rt, self.opened, self.all.saturating_sub(self.gone)).is_none()
    }
}
