// What is wrong with a mark of a reply.

use trust_mark::MarkReason;

/// What is wrong with a mark of a reply. Of both the first is told.
#[derive(Clone, Copy, Debug, PartialEq, Eq, Drop)]
pub enum Flaw {
    /// It isn't good, for this reason.
    Bad(MarkReason),
    /// It ends before the reply.
    Late,
}
