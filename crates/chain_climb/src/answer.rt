// What a search is answered, and what it keeps of that.

use crate::path::Path;
use entity_id::EntityId;
use entity_statement::Statement;
use fed_base::{Duplicate, Memory, Text};
use std::alloc::Global;

/// Where a page came from.
#[derive(Clone, Copy, Drop)]
pub enum Origin {
    /// The cache.
    Shelf,
    /// The network.
    Link,
}

/// The answer to a want. The first four answer `Config` and `Superior`, the last three `Judge`.
#[derive(Drop)]
pub enum Answer {
    /// The page is good, and says this.
    Good(Statement, Origin),
    /// There is a page, and it isn't good.
    Useless(Origin),
    /// The link failed.
    Fault,
    /// The page had to be asked of the link, and as many were asked as the bounds allow.
    Spent,
    /// The chain is valid.
    Valid,
    /// The chain would be valid without its policies.
    PolicyFails,
    /// The chain is refused for another reason.
    Invalid,
}

impl Duplicate for Answer {
    fn copy(&self, alloc: Global) -> Result<Self, Memory> {
        match self {
            Answer::Good(statement, origin) => Ok(Answer::Good(statement.copy(alloc)?, *origin)),
            Answer::Useless(origin) => Ok(Answer::Useless(*origin)),
            Answer::Fault => Ok(Answer::Fault),
            Answer::Spent => Ok(Answer::Spent),
            Answer::Valid => Ok(Answer::Valid),
            Answer::PolicyFails => Ok(Answer::PolicyFails),
            Answer::Invalid => Ok(Answer::Invalid),
        }
    }
}

/// What was answered of a page.
#[derive(Drop)]
pub enum Report {
    Good(Statement, Origin),
    Useless(Origin),
    Fault,
    Spent,
}

/// A page that was wanted, with the answer. A configuration has one entity as issuer and subject.
#[derive(Drop)]
pub struct PageAnswer {
    pub issuer: EntityId,
    pub subject: EntityId,
    pub url: Text,
    pub answer: Report,
}

/// A path that was to be judged, with the URLs of its chain, and the answer.
#[derive(Drop)]
pub struct Verdict {
    pub path: Path,
    pub answer: Answer,
}
