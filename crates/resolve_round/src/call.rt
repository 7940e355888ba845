// What a resolve call works with.

use crate::trace::Trace;
use fed_base::{Ledger, Steps};
use statement_shelf::{Commons, FedPass};
use std::alloc::Global;

/// What a resolve call works with: the objects that all callers share, its own place at them, and what it tells of itself.
#[derive(Drop)]
pub struct Call<'a, R, G: Ledger> {
    /// The cache and the book.
    pub commons: &'a Commons,
    /// By which it waits for its turn at them.
    pub rt: &'a R,
    /// Where memory is taken from.
    pub alloc: Global,
    /// What it has seen of the cache and the book.
    pub pass: &'a mut FedPass,
    /// What it has done.
    pub trace: &'a mut Trace,
    /// Where the signatures are counted that it tests.
    pub steps: &'a mut Steps<G>,
}
