// A network of two callers, of which the second one may come late.

ghost use Rattle.std.specs.Prelude.{◌≡◌, IfOk, None, is_some, true};

use crate::flag::Flag;
use crate::peer::{Caller, TellingPeer};
use fed_base::{Failed, Memory};
use fed_ports::{Address, Network};
use std::alloc::Global;

// The port to which the callers come.
const PORT: u16 = 443;

/// A network that listens, and to which two callers come, the second one once a flag is raised, where it waits for one. It opens no
/// connection, and tells neither its exchanges nor its callers.
#[derive(Drop)]
pub(crate) struct TwoCallers<'a> {
    first: Option<TellingPeer<'a>>,
    second: Option<TellingPeer<'a>>,
    comes: Option<&'a Flag>,
    settled: Vec<TellingPeer<'a>>,
    port: Option<u16>,
    opened: bool,
    faults: u64,
}

impl<'a> TwoCallers<'a> {
    /// A network of which no call was made, to which these come.
    pub(crate) fn new(
        alloc: Global,
        first: Caller<'a>,
        second: Caller<'a>,
        comes: Option<&'a Flag>,
    ) -> Result<TwoCallers<'a>, Memory>
        ensures { IfOk result (λ net. is_some net.port ≡ true) }
    {
        let first = TellingPeer::new(alloc, first)?;
        match TellingPeer::new(alloc, second) {
            Ok(second) => Ok(TwoCallers {
                first: Some(first),
                second: Some(second),
                comes,
                settled: Vec::new(alloc),
                port: Some(PORT),
                opened: false,
                faults: 0,
            }),
            Err(memory) => {
                drop(first);
                Err(memory)
            }
        }
    }

    /// The callers that were settled, in order and as they stood then.
    pub(crate) fn settled(&self) -> &[TellingPeer<'a>] {
        self.settled.as_slice()
    }

    // The next caller, once it has come.
    fn next_caller(&mut self) -> Option<TellingPeer<'a>>
        ensures port { self.new.port ≡ self.old.port }
        ensures opened { self.new.opened ≡ self.old.opened }
        ensures faults { self.new.faults ≡ self.old.faults }
    {
        if self.first.is_some() {
            return self.first.take();
        }
        let has_come = match self.comes {
            Some(flag) => flag.is_met(),
            None => true,
        };
        if has_come { self.second.take() } else { None }
    }
}

impl<'a> Network for TwoCallers<'a> {
    type Peer = TellingPeer<'a>;

    ghost faults = { λ network. network.faults };

    ghost is_open = { λ network. network.opened ≡ true };

    ghost port = { λ network. network.port };

    ghost exchanges = { λ _. None };

    ghost callers = { λ _. None };

    ghost settled = { λ _. None };

    fn open(&mut self, _to: &Address) -> Result<(), Failed> {
        self.opened = false;
        self.faults = self.faults.saturating_add(1);
        Err(Failed)
    }

    fn send(&mut self, _piece: &[u8]) -> Result<usize, Failed> {
        self.faults = self.faults.saturating_add(1);
        Err(Failed)
    }

    fn receive(&mut self, _into: &mut [u8]) -> Result<usize, Failed> {
        self.faults = self.faults.saturating_add(1);
        Err(Failed)
    }

    fn shut(&mut self) {
        self.opened = false;
    }

    fn listen(&mut self, to: u16) -> Result<(), Failed> {
        self.port = Some(to);
        Ok(())
    }

    fn accept(&mut self) -> Result<TellingPeer<'a>, Failed> {
        match self.next_caller() {
            Some(peer) => Ok(peer),
            None => {
                self.faults = self.faults.saturating_add(1);
                Err(Failed)
            }
        }
    }

    fn settle(&mut self, _alloc: Global, peer: TellingPeer<'a>) -> Result<(), Memory> {
        self.settled.push(peer)?;
        Ok(())
    }

    fn another(&self, alloc: Global) -> Result<Self, Memory> {
        Ok(TwoCallers {
            first: None,
            second: None,
            comes: None,
            settled: Vec::new(alloc),
            port: None,
            opened: false,
            faults: 0,
        })
    }
}
