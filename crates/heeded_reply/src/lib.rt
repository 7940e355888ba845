//! Layer 7, program: a resolve call whose reply's trust marks are asked about (OpenID Federation 1.0 sections 7.3, 8.3 and 8.4).
//!
//! A resolver returns the marks that were good when their issuers sealed them. Here each issuer whose configuration names a status endpoint
//! is asked whether its marks still are, over the network of the call and behind its fetches; and where a mark isn't kept the reply is
//! sealed anew without it. The crate above writes the reply and what was told of each mark.
#![tactic(auto)]

mod arrivals;
mod asker;
mod call;
mod heeding;
mod lines;
mod marks;
mod notes;
mod reply;

pub use arrivals::{Arrival, Arrivals};
pub use call::heed_once;
pub use lines::reply_lines;
pub use notes::explain_marks;
pub use reply::{Heard, HeededReply};
