//! Layer 2, texts: entity identifiers (OpenID Federation 1.0 section 1.2) and what is read off them.
//!
//! An identifier is a URL of the web with neither query, fragment nor user information. It is kept and compared as the
//! text that it was read from. The crates above take from it the host that naming constraints are about (section 6.2.2),
//! the URL of its configuration (section 9), and the URL at which a superior is asked about it (section 8.1).
#![tactic(auto)]

mod fault;
mod identifier;
mod names;
mod urls;

pub use fault::IdFault;
pub use identifier::EntityId;
pub use names::matches_name;
pub use urls::{fetch_url, without_slash};
