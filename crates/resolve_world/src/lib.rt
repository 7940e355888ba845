//! Layer 6, the service: one call of the resolver as a session among others, in every order of their calls.
//!
//! Whoever else uses the cache and the book, what a call did and what its pass has seen of them make up a world: a list of what sessions
//! do, in which each object answers by its plain list. The laws of `fed_resolver` speak of such worlds; here they are tied to calls.
#![tactic(auto)]

pub mod laws;
