//! Layer 4, statements: metadata policies of OpenID Federation 1.0 (section 6.1), what a superior says about the metadata of the entities
//! below it.
//!
//! A [`Policy`] is read from a tree (section 6.1.2), looked through for operators that don't stand together
//! (section 6.1.3.1), and merged with that of the next entity down a chain (section 6.1.4.1). The crates above read the
//! policies of statements and merge those of a chain. They apply the merged one parameter by parameter, and ask
//! which members a value has by [`members`].
#![tactic(auto)]

mod combining;
mod fault;
mod merging;
mod operator;
mod operators;
mod policy;
mod read;
mod scope;
mod tables;

pub use fault::{PolicyFault, PolicyShape};
pub use merging::{Parameters, Types, operators_of, parameters_of};
pub use operator::{OPERATORS, Operator};
pub use operators::Operators;
pub use policy::Policy;
pub use scope::{is_scope, members, words_in};
