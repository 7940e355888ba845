// What looking at a reply's marks answers.

use crate::flaw::Flaw;
use fed_base::Seq;

// The place of a mark, counted from 0, and what is wrong with it.
#[derive(Clone, Copy, Debug, PartialEq, Eq, Drop)]
pub(crate) struct Place {
    pub(crate) place: u64,
    pub(crate) flaw: Flaw,
}

// The first mark that doesn't stand, or which of the marks were checked.
#[derive(Drop)]
pub(crate) enum Looked {
    Flawed(Place),
    Stand(Seq<bool>),
}
