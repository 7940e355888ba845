//! Layer 5, chains: the search for a trust chain from a leaf up to a trust anchor (OpenID Federation 1.0 section 10.1).
//!
//! The search asks for nothing itself. A [`Session`] says which page it wants next, or which chain is to be judged, takes the answer, and
//! says at last how the search ended. The crate above fetches the pages, judges the chains, and sets the bounds of the search.
#![tactic(auto)]

mod answer;
mod facing;
pub mod laws;
mod pages;
mod path;
mod place;
mod session;
mod state;
mod walk;
mod want;

pub use answer::{Answer, Origin, PageAnswer, Report, Verdict};
pub use path::Path;
pub use session::Session;
pub use want::{Bounds, End, Want};
