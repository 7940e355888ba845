// Copies of a trace.

use crate::trace::{Ask, Check, Event, Got, Search, Trace};
use fed_base::{Duplicate, Memory};
use std::alloc::Global;

impl Duplicate for Got {
    fn copy(&self, alloc: Global) -> Result<Self, Memory> {
        match self {
            Got::Hit(proven) => Ok(Got::Hit(proven.copy(alloc)?)),
            Got::Fetched(page) => Ok(Got::Fetched(page.copy(alloc)?)),
            Got::Fault => Ok(Got::Fault),
        }
    }
}

impl Duplicate for Ask {
    fn copy(&self, alloc: Global) -> Result<Self, Memory> {
        let url = self.url.copy(alloc)?;
        let got = self.got.copy(alloc)?;
        Ok(Ask { url, got })
    }
}

impl Duplicate for Search {
    fn copy(&self, alloc: Global) -> Result<Self, Memory> {
        let leaf = self.leaf.copy(alloc)?;
        let asks = self.asks.copy(alloc)?;
        Ok(Search {
            leaf,
            asks,
            hits: self.hits,
            calls: self.calls,
            paths: self.paths,
            faults: self.faults,
            ended: self.ended,
        })
    }
}

impl Duplicate for Check {
    fn copy(&self, alloc: Global) -> Result<Self, Memory> {
        let text = self.text.copy(alloc)?;
        Ok(Check {
            text,
            public: self.public,
            good: self.good,
        })
    }
}

impl Duplicate for Event {
    fn copy(&self, alloc: Global) -> Result<Self, Memory> {
        match self {
            Event::Shelf(call, reply) => {
                let call = call.copy(alloc)?;
                Ok(Event::Shelf(call, reply.copy(alloc)?))
            }
            Event::Book(call, reply) => {
                let call = call.copy(alloc)?;
                Ok(Event::Book(call, reply.copy(alloc)?))
            }
        }
    }
}

impl Duplicate for Trace {
    fn copy(&self, alloc: Global) -> Result<Self, Memory> {
        let keys = self.keys.copy(alloc)?;
        let searches = self.searches.copy(alloc)?;
        let checks = self.checks.copy(alloc)?;
        let events = self.events.copy(alloc)?;
        Ok(Trace {
            moment: self.moment,
            epoch: self.epoch,
            keys,
            bounds: self.bounds,
            searches,
            checks,
            events,
        })
    }
}
