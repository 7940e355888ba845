//! Layer 1, the outside: callers that have come and of whom none has asked yet.
//!
//! [`Waiting`] keeps up to 256 [`Caller`]s in the order in which they came. It looks at each of them, hands on the first whose request is
//! there, and lets go of those that said nothing for 10 seconds, or whose request wasn't there 5 seconds after it was seen to begin. So
//! nobody is served before there is something to serve, and who is silent holds nobody up. A [`RealCaller`] is one over the system's TCP
//! (RFC 9293). [`Noted`] and [`NotedAnswer`] have what the log tells of a request and its answer, in a [`LogLine`], and a [`FetchLine`]
//! tells of a fetch that failed. `fed_net` accepts the callers, and fetches.
#![tactic(auto)]

mod caller;
mod fetch_line;
mod log_line;
mod log_moment;
mod look;
mod noted;
mod noted_answer;
mod real_caller;
mod request_ends;
mod spelled;
mod waiter;
mod waiting;

pub use caller::Caller;
pub use fetch_line::FetchLine;
pub use log_line::{Log, LogLine};
pub use look::Look;
pub use noted::Noted;
pub use noted_answer::NotedAnswer;
pub use real_caller::RealCaller;
pub use waiter::{REQUEST, SILENCE, Waiter};
pub use waiting::{MOST_CALLERS, Waiting};
