//! Layer 7, the program: what looks wrong in a node's configuration that is read, and would be found out by others.
//!
//! [`warnings`] lists the members and operators that nobody reads, the policies that refuse every chain, the sets without a key that
//! verifies anything, the trust anchors without a route, the routes that are never taken, and a signer that has ended (OpenID Federation
//! 1.0 sections 3, 6 and 9). `config_notes` says them to a person, and `cli_inspect` ends by them where `check-config` is strict.
#![tactic(auto)]

mod all;
mod ended;
mod keys;
mod members;
mod part;
mod places;
mod policies;
mod routes;
mod scan;
mod source;
mod trees;
mod warning;

pub use all::{is_warned, warnings};
pub use part::Part;
pub use source::ConfigText;
pub use warning::{Kind, Warning};
