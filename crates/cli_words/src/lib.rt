//! Layer 7, the program: the words of its command line.
//!
//! [`read_call`] reads the words after the program's name as a [`Call`], by the table of verbs of `cli_help`: a [`Command`], which
//! `cli_commands` does, an [`Inspection`], which `cli_inspect` shows, a [`Service`], which works over a network, or over one in memory, or
//! a [`Registration`], which reads an input and asks others over a network.
//! Each has what its options give: names of files, moments, an entity identifier (OpenID Federation 1.0 section 1.2), the type of a text
//! that is sealed (sections 3.1.1, 7.1 and 7.2.1), and a change of a key ring. `cli_notes` tells a person why words give none.
#![tactic(auto)]

mod act;
mod algorithm;
mod call;
mod command;
mod inspection;
mod moment;
mod options;
mod registration;
mod rehearsal;
mod service;
mod text_type;

pub use act::Act;
pub use algorithm::alg_of;
pub use call::{Call, read_call};
pub use command::{Command, WORKERS};
pub use inspection::{Inspection, ReplyAsked};
pub use moment::{Moment, moment_or};
pub use options::{count_of, moment_of, option_in};
pub use registration::Registration;
pub use rehearsal::params_of;
pub use service::{CONNECTIONS, PORTS, Service};
pub use text_type::TextType;
