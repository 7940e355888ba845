//! Layer 6, service: many requests over one connection (RFC 9112 sections 9.3 and 9.6), answered one after the other, in whatever pieces
//! their bytes come.
//!
//! A server gives its [`Answerer`] to [`serve_stream`], which reads the requests of a peer off its bytes and writes the responses.
#![tactic(auto)]

mod answerer;
mod answering;
mod cutting;
mod fault;
mod inbox;
mod laws;
mod stream;

pub use answerer::Answerer;
pub use fault::StreamFault;
pub use laws::one_stream;
pub use stream::serve_stream;
