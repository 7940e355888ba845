// What an authority answers with beside its node and its clock.

use crate::no_link::NoLink;
use fed_ports::{Memory, OpensLedgers, Plain, Seq, Steps};
use statement_shelf::{Commons, FedPass};
use std::alloc::Global;

/// A pass of a cache and a book that list nothing and a link that gets no page, neither of which an authority uses, and where tested
/// signatures are counted.
#[derive(Drop)]
pub(crate) struct Tools {
    pub(crate) pass: FedPass,
    pub(crate) link: NoLink,
    pub(crate) steps: Steps<Plain>,
}

impl Tools {
    pub(crate) fn new<R: OpensLedgers>(rt: &R, alloc: Global) -> Result<Tools, Memory> {
        let (_commons, pass) = Commons::new(alloc, Seq::new(alloc))?;
        Ok(Tools {
            pass,
            link: NoLink::new(),
            steps: Steps {
                ledger: Plain::new(rt),
            },
        })
    }
}
