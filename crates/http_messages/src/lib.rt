//! Layer 6, service: requests and responses of HTTP/1.1 (RFC 9110 and RFC 9112), in whatever pieces their bytes come.
//!
//! A server reads a [`Request`] by [`read_request`] and writes a [`Response`] by [`write_response`]. `http_plain` gives all of them again
//! and reads the answers that a client gets over [`Inflow`], [`pour_head`] and [`find`]. Texts are said of as whole lists of bytes; pieces
//! and buffers are in the code alone.
#![tactic(auto)]

mod connection;
mod cut;
mod fields;
mod heads;
mod inflow;
mod laws;
mod plan;
mod read;
mod request;
mod response;
mod sources;
mod write;

pub use cut::{Cut, cut_request, needed};
pub use fields::{Found, Stated, content_length, find, is_name};
pub use heads::{LINE_LIMIT, head_end};
pub use inflow::{Break, Inflow, pour_head, pour_head_on, pour_to};
pub use laws::one_answer;
pub use read::{ReadEnd, read_request};
pub use request::{Incoming, Method, Pair, Request};
pub use response::{Media, Response};
pub use sources::Taking;
pub use write::{WriteEnd, out_of_memory, write_kept, write_response};
