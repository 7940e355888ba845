// A caller over TCP that has come and is waited for.

ghost use Rattle.std.specs.Prelude.{◌≡◌, None};

use crate::caller::Caller;
use crate::look::Look;
use crate::noted::Noted;
use std::alloc::Global;
use std::io::{ErrorKind, Read};
use std::net::{SocketAddr, TcpStream};
use std::time::Instant;

// How many bytes of a request are waited for at most.
const AHEAD: usize = 4096;

/// A caller that waits. What came of its request is kept for whoever reads the request.
#[derive(Drop)]
pub struct RealCaller {
    /// Its connection, in which nothing is waited for.
    pub stream: TcpStream,
    /// Its address.
    pub from: SocketAddr,
    /// When it came.
    pub came: Option<Instant>,
    /// What came of its request.
    pub ahead: Vec<u8>,
    /// The same, as the log tells it.
    pub noted: Noted,
    is_lost: bool,
}

impl RealCaller {
    /// A caller that has come at that moment. `None` where its connection can't be looked at, which is closed then.
    pub fn new(
        alloc: Global,
        stream: TcpStream,
        from: SocketAddr,
        came: Option<Instant>,
    ) -> Option<RealCaller> {
        stream.set_nonblocking(true).ok()?;
        Some(RealCaller {
            stream,
            from,
            came,
            ahead: Vec::new(alloc),
            noted: Noted::new(),
            is_lost: false,
        })
    }

    // Keeps what has come. Where memory is wanting the caller can't be served.
    fn keep(&mut self, bytes: &[u8])
        ensures { self.new.from ≡ self.old.from }
    {
        if self.ahead.extend_from_slice(bytes).is_err() {
            self.is_lost = true;
        }
        self.noted.read(bytes);
    }

    // What is there of its request.
    fn so_far(&self) -> Look {
        if self.is_lost {
            Look::Gone
        } else if self.noted.is_whole() || self.ahead.len() >= AHEAD {
            Look::Whole
        } else if self.ahead.is_empty() {
            Look::Silent
        } else {
            Look::Speaks
        }
    }
}

impl Caller for RealCaller {
    ghost is_same = { λ old new. new.from ≡ old.from };

    ghost says = { λ _. None };

    // A caller that ends its side or breaks off is handed on: whoever reads it is told of it.
    fn look(&mut self) -> Look {
        let mut bytes = [0u8; AHEAD];
        let room = AHEAD.saturating_sub(self.ahead.len());
        match self.stream.read(&mut bytes[..room]) {
            Ok(0) if !self.is_lost => Look::Whole,
            Ok(0) => Look::Gone,
            Ok(n) => {
                self.keep(bytes.get(..n).unwrap_or(&[]));
                self.so_far()
            }
            Err(error) => match error.kind() {
                ErrorKind::WouldBlock | ErrorKind::Interrupted => self.so_far(),
                _ if self.is_lost => Look::Gone,
                _ => Look::Whole,
            },
        }
    }
}
