//! Layer 2, texts: the compact serialization of JSON Web Signature, as OpenID Federation 1.0 sends it (RFC 7515 sections 3
//! and 7.1): three base64url parts between full stops, which are a header, a payload and a signature.
//!
//! [`split`] takes a text apart and says what is wrong with one that it refuses. [`signing_input`] and [`join`] put one
//! together. The crates above look at the parts of a [`Compact`], check its signature over `signed`, and read its
//! payload.
#![tactic(auto)]

mod algorithm;
mod compact;
mod fault;
mod header;
mod joining;
mod parts;
mod splitting;

pub use algorithm::{algorithm_name, algorithm_of};
pub use compact::Compact;
pub use fault::FormFault;
pub use joining::{join, signing_input};
pub use splitting::{split, split_long, split_text};
