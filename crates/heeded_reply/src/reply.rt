// Replies whose marks were asked about.

use crate::arrivals::Arrivals;
use entity_statement::MarkEntry;
use fed_base::{Seq, Text};
use fed_resolver::Outcome;
use mark_status::Tell;

/// A reply whose marks were asked about.
#[derive(Drop)]
pub struct HeededReply {
    /// The claims, sealed, as compact text: anew where a mark isn't kept.
    pub text: Text,
    /// The marks that were asked about: all that the search returned, in their order.
    pub marks: Seq<MarkEntry>,
    /// What was told of each of them.
    pub tells: Seq<Tell>,
    /// What came of the posts that asked about them, one for each that isn't told `Unasked`.
    pub arrivals: Arrivals,
}

/// What a call answered, and what became of its reply.
#[derive(Drop)]
pub struct Heard {
    /// What the call answered before anybody was asked.
    pub outcome: Outcome,
    /// Its reply, once its marks were asked about: `None` where it has none, or where memory was wanting for that.
    pub reply: Option<HeededReply>,
}
