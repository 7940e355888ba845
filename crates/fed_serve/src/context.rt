// What each answer is made with.

use std::alloc::Global;

/// What a request is answered with that is the same for all of it.
#[derive(Drop)]
pub struct Context<'a, R> {
    /// The runtime.
    pub rt: &'a R,
    /// Where memory comes from.
    pub alloc: Global,
    /// The moment, in seconds since 1970, below 2^62.
    pub t: u64,
}
