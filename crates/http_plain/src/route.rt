// Routes.

use fed_ports::{Address, Duplicate, Memory, Text};
use std::alloc::Global;

/// Where the connections for a host go. The host is as a URL has it: a domain in lower case, or an address in its usual form.
#[derive(Drop)]
pub struct Route {
    pub host: Text,
    pub to: Address,
}

impl Duplicate for Route {
    fn copy(&self, alloc: Global) -> Result<Route, Memory> {
        Ok(Route {
            host: self.host.copy(alloc)?,
            to: self.to,
        })
    }
}
