//! Layer 7, the program: what a person reads of the system, beside the notes of a call.
//!
//! `main` alone calls it: what starts and why it ends, what is waited for, why the system lets no file be read or kept, which calls of the
//! network failed and why, and what the program was built from. It changes no answer; [`with_ring`] and [`with_build`] give the status
//! where a strict check finds an open ring, and where the build can't be written.
#![tactic(auto)]

mod build;
mod ending;
mod named_file;
mod reasons;
mod telling;

pub use ending::Started;
pub use telling::{
    FAULTY, ended, tell_of_address, tell_of_fetch_time, tell_of_node, tell_of_waiting, with_build,
    with_ring,
};
