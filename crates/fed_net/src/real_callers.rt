// Those that call at a port of the system.

use crate::real_peer::RealPeer;
use std::alloc::Global;
use std::io::{Eprint, ErrorKind};
use std::net::{OpenListener, SocketAddr, TcpListener, TcpStream};
use std::thread;
use std::time::{Clock as SystemClock, Duration, Instant};
use waiting_callers::{Log, RealCaller, Waiting};

// How many connections that were gone before they were accepted are passed over, one after the other.
const TRIES: u32 = 1024;

// For how many microseconds nobody is looked at, where some wait and none has asked: each time twice as long, up to the last.
const FIRST_PAUSE: u64 = 250;

const LAST_PAUSE: u64 = 16_000;

/// A port on which connections are accepted, and those that wait there.
#[derive(Drop)]
pub struct RealCallers {
    alloc: Global,
    listener: TcpListener,
    waiting: Waiting<RealCaller>,
    began: Option<Instant>,
    moment: u64,
}

impl RealCallers {
    /// The port of that listener, at which nobody waits.
    pub fn new<R: SystemClock>(rt: &R, alloc: Global, listener: TcpListener) -> RealCallers {
        RealCallers {
            alloc,
            listener,
            waiting: Waiting::new(alloc),
            began: Instant::now(rt).ok(),
            moment: 0,
        }
    }

    // The moment, in milliseconds since the port was taken. Where the clock fails it is the last one.
    fn moment<R: SystemClock>(&mut self, rt: &R) -> u64 {
        if let Some(began) = self.began {
            if let Ok(spent) = began.elapsed(rt) {
                let spent = u64::try_from(spent.as_millis()).unwrap_or(u64::MAX);
                self.moment = self.moment.max(spent);
            }
        }
        self.moment
    }

    // One has come, and waits from now on.
    fn come<R: SystemClock>(&mut self, rt: &R, stream: TcpStream, from: SocketAddr) {
        let now = self.moment(rt);
        if let Some(caller) = RealCaller::new(self.alloc, stream, from, Instant::now(rt).ok()) {
            if self.waiting.has_room() {
                // Where memory is wanting its connection is closed.
                let _ = self.waiting.come(caller, now);
            }
        }
    }

    // Lets one wait that has come, where there is room for one more, and waits for it where nobody else waits. Whether one has come. `None`
    // where the port fails and nobody waits.
    fn admit<R: SystemClock>(&mut self, rt: &R) -> Option<bool> {
        if !self.waiting.has_room() {
            return Some(false);
        }
        self.listener
            .set_nonblocking(!self.waiting.is_empty())
            .ok()?;
        for _ in 0..TRIES {
            match self.listener.accept() {
                Ok((stream, from)) => {
                    self.come(rt, stream, from);
                    return Some(true);
                }
                Err(error) => match error.kind() {
                    ErrorKind::ConnectionAborted | ErrorKind::Interrupted => {}
                    _ if self.waiting.is_empty() => return None,
                    _ => return Some(false),
                },
            }
        }
        if self.waiting.is_empty() {
            None
        } else {
            Some(false)
        }
    }

    /// The first whose request is there, of those that have come and that will come, or before it one that is late, whose reading fails at
    /// once. `None` where the port fails.
    pub fn next<'a, R: SystemClock + Eprint>(
        &mut self,
        rt: &'a R,
        log: Log,
    ) -> Option<RealPeer<'a, R>> {
        let mut pause = FIRST_PAUSE;
        for _ in 0..u64::MAX {
            let now = self.moment(rt);
            self.waiting.look(now);
            if let Some(waiter) = self.waiting.hand_on() {
                return Some(RealPeer::new(rt, waiter.caller, log));
            }
            if let Some(waiter) = self.waiting.let_go(now) {
                return Some(RealPeer::late(rt, waiter.caller, log));
            }
            // One more is accepted only while nobody has asked: who isn't accepted stays with the system, for this process or the next one.
            if self.admit(rt)? {
                pause = FIRST_PAUSE;
            } else if !self.waiting.is_empty() {
                thread::sleep(rt, Duration::from_micros(pause));
                pause = pause.saturating_mul(2).min(LAST_PAUSE);
            }
        }
        None
    }
}
