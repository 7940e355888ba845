// The answer on a chain whose signatures weren't looked at.

use crate::reason::Reason;
use entity_statement::SignedStatement;
use fed_base::Seq;

/// The answer on a chain whose signatures weren't looked at.
#[derive(Drop)]
pub enum Screened {
    /// No class of failures before the signatures refuses it: its statements, the leaf's first.
    Candidate(Seq<SignedStatement>),
    /// It is refused. Places count from 0, the leaf's.
    Refused { place: u64, reason: Reason },
}
