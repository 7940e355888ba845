// What connections are served with.

use crate::node::Opened;
use fed_serve::ResolverPart;
use std::alloc::Global;

/// What connections are served with.
#[derive(Drop)]
pub(crate) struct Server<'a, R> {
    pub(crate) rt: &'a R,
    pub(crate) alloc: Global,
    pub(crate) opened: &'a Opened,
    /// The node's part for resolving.
    pub(crate) part: &'a ResolverPart,
}
