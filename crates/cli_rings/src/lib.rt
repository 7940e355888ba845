//! Layer 7, the program: what `keygen`, `issue` and `rotate` make of a key ring and their input.
//!
//! [`keygen`] makes the file of a ring of one key (FIPS 205 Algorithm 18), [`issue`] seals claims by a ring's signer (OpenID Federation 1.0
//! sections 3 and 7), and [`add`], [`retire`] and [`revoke`] change a ring (section 8.7). Each gives a [`Reply`], as every command does;
//! [`open_ring`] gives the ring of the [`File`] that a command names. `cli_commands` takes files and the input, and keeps and writes what
//! the reply has.
#![tactic(auto)]

mod generating;
mod issuing;
mod reply;
mod ring_file;
mod rotate;

pub use generating::keygen;
pub use issuing::issue;
pub use reply::{Reply, plain};
pub use ring_file::{File, explain_no_ring, open_ring};
pub use rotate::{add, retire, revoke};
