//! Layer 3, signatures: a node's ring of signing keys (OpenID Federation 1.0 section 8.7): its changes, its file, and the key sets that are
//! published of it.
//!
//! A ring is a list of keys of SLH-DSA-SHA2-128s and SLH-DSA-SHA2-128f, newest first, each live, retired or revoked. The newest live key
//! signs. A change is kept in the store before the ring changes. The crates above open a ring's file, sign by [`KeyRing::signer`], publish
//! [`KeyRing::live_set`] and [`KeyRing::historical`], test old marks under [`KeyRing::kept_set`], tell of a ring by [`KeyRing::terms`],
//! which have no seeds, and change rings by [`KeyRing::rotate`], [`KeyRing::retire`] and [`KeyRing::revoke`].
//!
//! Files of versions 1 and 2 are read, and version 2 is written.
#![tactic(auto)]

mod changing;
mod fault;
mod first;
mod held;
mod key;
mod laws;
mod reading;
mod ring;
mod sets;
mod term;
mod version;
mod writing;

pub use fault::{OrderFault, RingFault};
pub use first::first_file;
pub use key::{KeyState, RevokeReason, RingKey};
pub use laws::{changes, files, migrates, opens};
pub use reading::{alg_at, moment_at, version_in};
pub use ring::KeyRing;
pub use term::KeyTerm;
pub use version::Version;
