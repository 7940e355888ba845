// What was answered.

use fed_resolver::Trace;
use node_requests::Kind;

/// What was answered: of which kind the request is, the status that was written, and what the resolve call did, where there was one.
#[derive(Drop)]
pub struct Served {
    pub kind: Kind,
    pub status: u16,
    pub trace: Option<Trace>,
}
