//! Layer 6, the service: what one search round of a resolver is, the trace of what it did, and its pages.
//!
//! A round searches for a trust chain from a leaf to a trust anchor (OpenID Federation 1.0 section 10.1). It fetches entity
//! configurations (section 9) and statements of superiors (section 8.1), looks for them in the shared cache first where it is a first
//! round, tests signatures, and judges each path up to the anchor as a chain. Everything that it does stands in a [`Trace`].
//!
//! Here a round gets its pages ([`obtain`]), from what it has, from the cache or from its link, keeps in the cache what was fetched
//! ([`keep_new`]), and tests signatures ([`verifies`]), each pair of a text and a key once. The crate above makes rounds of this.
#![tactic(auto)]

mod acts;
mod aim;
mod asking;
mod call;
mod copies;
mod getting;
mod halt;
mod keeping;
mod known;
pub mod laws;
mod looking;
mod own;
mod proving;
mod reading;
mod request;
mod tests;
mod trace;

pub use aim::Aim;
pub use call::Call;
pub use getting::{Place, obtain};
pub use halt::Halt;
pub use keeping::keep_new;
pub use known::{checked, shown};
pub use own::seals_itself;
pub use reading::{read_got, text_got};
pub use request::ResolveRequest;
pub use tests::verifies;
pub use trace::{Ask, Check, Event, Got, Search, Trace};
