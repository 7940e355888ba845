//! Layer 7, the program: what a signed text, a chain or a key set says, for people.
//!
//! [`show`] writes header and claims of signed texts (RFC 7515) on lines, and then what each is by its type and its claims, as an entity
//! statement or a trust mark (OpenID Federation 1.0 sections 3 and 7), or the first reason why it isn't; of a key set (RFC 7517) what its
//! keys are for and their thumbprints. No signature is looked at. [`show_json`] writes one value (RFC 8259) on lines, of which each level
//! stands in by two places: moments have their dates beside them, and keys their thumbprints (RFC 7638) in place of what they are made of.
//! [`show_claims`] gives the claims of one text as they were signed, for programs. `cli_inspect` shows the input of `fed show` by these.
#![tactic(auto)]

mod chain;
mod claims;
mod faults;
mod finding;
mod indented;
mod key_set;
mod key_view;
mod lines;
mod notes;
mod parts;
mod showing;
mod thumbprints;
mod view;

pub use claims::show_claims;
pub use indented::show_json;
pub use showing::show;
pub use view::View;
