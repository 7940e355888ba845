// What the top call works on.

use fed_ports::Text;
use statement_shelf::FedPass;

/// The outside.
#[derive(Drop)]
pub(crate) struct Ports<'a, S, K, D, N, C> {
    pub(crate) input: &'a mut S,
    pub(crate) out: &'a mut K,
    pub(crate) store: &'a mut D,
    pub(crate) net: &'a mut N,
    pub(crate) clock: &'a mut C,
}

/// Where passes are handed out: one that has seen a worn object, and one that was joined of all desks' passes.
#[derive(Drop)]
pub(crate) struct Passes<'a> {
    pub(crate) worn: &'a mut Option<FedPass>,
    pub(crate) joined: &'a mut Option<FedPass>,
}

/// What a service is asked for: a configuration file, a port from 1 to 65,535, and how many connections are served.
#[derive(Clone, Copy)]
pub(crate) struct Order<'a> {
    pub(crate) config: &'a Text,
    pub(crate) port: u16,
    pub(crate) connections: u64,
}
