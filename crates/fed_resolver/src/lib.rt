//! Layer 6, the service: the metadata of an entity, resolved up to a trust anchor, as a signed reply (OpenID Federation 1.0
//! section 8.3).
//!
//! A resolver searches a trust chain of the entity, and of the issuers of its trust marks, looks which of its marks are good, and
//! seals what the chain resolves to with the good marks. The crates above write a reply to whoever asked for it.
#![tactic(auto)]

mod book;
mod call;
mod issuers;
pub mod laws;
mod outcome;
mod replying;
mod rounds;
mod texts;

pub use call::resolve;
pub use outcome::{Outcome, Refusal};
pub use resolve_reply::{AnchorBounds, Reply, Signer};
pub use resolve_round::{Ask, Check, Event, Got, ResolveRequest, Search, Trace};
