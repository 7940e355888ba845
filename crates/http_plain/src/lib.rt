//! Layer 6, service: a client of HTTP/1.1 (RFC 9110 and RFC 9112), which gets pages over a network in whatever pieces their bytes come.
//!
//! A client gets pages by [`HttpLink`]. The messages that a server reads and writes stand in `http_messages` and are given again here
//! under their names. Pages are said of as whole lists of bytes; pieces and buffers are in the code alone.
#![tactic(auto)]

mod exchange;
mod form;
mod laws;
mod link;
mod networks;
mod page;
mod poster;
mod posting;
mod route;
mod target;

pub use http_messages::{
    Cut, Incoming, Media, Method, Pair, ReadEnd, Request, Response, WriteEnd, cut_request, needed,
    one_answer, out_of_memory, read_request, write_kept, write_response,
};
pub use laws::{one_client_page, one_page};
pub use link::HttpLink;
pub use poster::Poster;
pub use route::Route;
