//! Layer 4, statements: entity statements (OpenID Federation 1.0 section 3): what a compact text claims.
//!
//! A statement of an entity about itself is its configuration; any other is a superior's about its subordinate. The
//! crates above read texts by [`Statement::read`] and trees by [`Statement::of_claims`], ask whether a statement is
//! current, and where its entity answers statements about its subordinates. Those that issue statements read by
//! [`identifier`], [`read_hints`], [`read_marks`], [`read_issuers`], [`read_owners`] and [`is_operator`] whether a claim has
//! its form.
#![tactic(auto)]

mod claims;
mod fault;
mod forms;
mod marks;
mod parts;
mod reading;
mod signed;
mod statement;
mod table;

pub use claims::is_operator;
pub use fault::StatementFault;
pub use forms::{identifier, read_hints};
pub use marks::{Issuers, MarkEntry, Owner, read_issuers, read_marks, read_owners};
pub use reading::STATEMENT_TYPE;
pub use signed::SignedStatement;
pub use statement::Statement;
