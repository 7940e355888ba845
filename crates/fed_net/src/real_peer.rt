// One end of an accepted connection of TCP. It tells no bytes.

ghost use Rattle.std.specs.Prelude.{◌≡◌, ◌≤◌, None, length, IfSome, IfNone};
ghost use Rattle.std.proofs.Common.{refl};

use crate::timed::{read, write};
use fed_base::Failed;
use fed_ports::{Peer, Sink, Source};
use fetch_time::left;
use std::io::Read;
use std::net::{Shutdown, SocketAddr, TcpStream};
use std::time::{Clock as SystemClock, Duration, Instant};
use waiting_callers::{Log, LogLine, Noted, NotedAnswer, RealCaller};

// In how many seconds a peer has to send the rest of its request, from when it was handed on, or from the first byte of a later one.
const REQUEST: u64 = 5;

// In how many seconds a peer whose connection was kept has to begin its next request.
const IDLE: u64 = 1;

// In how many seconds a peer has to take its answer, from when the first of it was given.
const ANSWER: u64 = 30;

// How many readings at most take away what a peer sent that nobody asked for.
const READINGS: u32 = 64;

// When all that there was of an answer was given, and in what time since its request began.
#[derive(Clone, Copy, Drop)]
struct Whole {
    at: Option<Instant>,
    spent: Duration,
}

/// A caller over TCP that was handed on. It fails where it hasn't sent its request 5 seconds after that, or was late before it, and where
/// it doesn't take its answer in 30 seconds. Once [`Sink::end`] says that its last answer was given it gets the end of it, though the
/// connection is kept until it is settled. Any other answer is over where more is read behind it, or is given and another request was read
/// by then: these times begin anew with the first byte of the next request, and the peer fails where that doesn't come in a second.
#[derive(Drop)]
pub struct RealPeer<'a, R: SystemClock + Eprint> {
    rt: &'a R,
    stream: TcpStream,
    from: SocketAddr,
    log: Log,
    ahead: Vec<u8>,
    taken: usize,
    is_late: bool,
    began: Option<Instant>,
    is_idle: bool,
    answered: Option<Instant>,
    whole: Option<Whole>,
    is_last: bool,
    noted: Noted,
    answer: NotedAnswer,
    reads: u64,
    writes: u64,
}

impl<'a, R: SystemClock + Eprint> RealPeer<'a, R> {
    /// A peer that is handed on now. Each of its answers leaves such a line on standard error.
    pub fn new(rt: &'a R, caller: RealCaller, log: Log) -> RealPeer<'a, R>
        ensures reads { ⟦<RealPeer<'a, R> as Source>⟧.read_faults result ≡ 0 }
        ensures writes { ⟦<RealPeer<'a, R> as Sink>⟧.write_faults result ≡ 0 }
    {
        // Small answers are sent at once. Where that can't be had they are only later. Where the stream doesn't wait its peer fails.
        let _ = caller.stream.set_nodelay(true);
        let _ = caller.stream.set_nonblocking(false);
        RealPeer {
            rt,
            stream: caller.stream,
            from: caller.from,
            log,
            ahead: caller.ahead,
            taken: 0,
            is_late: false,
            began: Instant::now(rt).ok(),
            is_idle: false,
            answered: None,
            whole: None,
            is_last: false,
            noted: Noted::new(),
            answer: NotedAnswer::new(),
            reads: 0,
            writes: 0,
        }
    }

    /// A peer whose time to ask was over before it was handed on: reading from it fails.
    pub fn late(rt: &'a R, caller: RealCaller, log: Log) -> RealPeer<'a, R>
        ensures reads { ⟦<RealPeer<'a, R> as Source>⟧.read_faults result ≡ 0 }
        ensures writes { ⟦<RealPeer<'a, R> as Sink>⟧.write_faults result ≡ 0 }
    {
        RealPeer {
            rt,
            stream: caller.stream,
            from: caller.from,
            log,
            ahead: caller.ahead,
            taken: 0,
            is_late: true,
            began: caller.came,
            is_idle: false,
            answered: None,
            whole: None,
            is_last: false,
            noted: caller.noted,
            answer: NotedAnswer::new(),
            reads: 0,
            writes: 0,
        }
    }

    // Takes what came while the peer waited, where some of it is left.
    fn take_ahead(&mut self, into: &mut [u8]) -> Option<usize>
        ensures within { IfSome result (λ n. n ≤ length into.old) }
        ensures buffer { IfNone result (into.new ≡ into.old) }
        ensures reads { self.new.reads ≡ self.old.reads }
        ensures writes { self.new.writes ≡ self.old.writes }
    {
        let left = self.ahead.get(self.taken..)?;
        if left.is_empty() {
            return None;
        }
        let n = left.len().min(into.len());
        into[..n].copy_from_slice(&left[..n]);
        self.taken = self.taken.saturating_add(n);
        Some(n)
    }

    // Notes what was read, with which the next request begins where none had begun.
    fn note(&mut self, bytes: &[u8])
        ensures reads { self.new.reads ≡ self.old.reads }
        ensures writes { self.new.writes ≡ self.old.writes }
    {
        if self.is_idle && !bytes.is_empty() {
            self.is_idle = false;
            self.began = Instant::now(self.rt).ok();
        }
        self.noted.read(bytes);
    }

    // How long ago the peer was handed on or its request began, or since when it waited where it is late.
    fn spent(&self) -> Duration {
        match self.began {
            Some(began) => began.elapsed(self.rt).unwrap_or(Duration::ZERO),
            None => Duration::ZERO,
        }
    }

    // Writes the line of an answer that took that time, or of a peer that was given none.
    fn tell(&self, spent: Duration) {
        let line = LogLine {
            from: self.from,
            request: &self.noted,
            answer: &self.answer,
            spent,
        };
        line.write(self.rt, self.log);
    }

    // Begins anew behind an answer that is over and wasn't the last: it leaves its line, and the next request is waited for.
    fn go_on(&mut self)
        ensures reads { self.new.reads ≡ self.old.reads }
        ensures writes { self.new.writes ≡ self.old.writes }
    {
        let Some(whole) = self.whole else {
            return;
        };
        if self.is_last {
            return;
        }
        self.tell(whole.spent);
        self.noted.next();
        self.answer = NotedAnswer::new();
        self.is_idle = !self.noted.has_begun();
        self.began = whole.at;
        self.answered = None;
        self.whole = None;
    }

    /// Ends the connection, and leaves a line where it asked anything that has none yet, or nothing at all. What came that nobody asked for
    /// is taken away, so that the peer still gets the end of its answer.
    pub fn close(self) {
        if !self.is_idle {
            let whole = self.whole;
            let spent = match whole {
                Some(whole) => whole.spent,
                None => self.spent(),
            };
            self.tell(spent);
        }
        let mut stream = self.stream;
        let _ = stream.shutdown(Shutdown::Write);
        if stream.set_nonblocking(true).is_err() {
            return;
        }
        let mut piece = [0u8; 1024];
        for _ in 0..READINGS {
            match stream.read(&mut piece) {
                Ok(n) if n > 0 => {}
                _ => return,
            }
        }
    }
}

impl<'a, R: SystemClock + Eprint> Source for RealPeer<'a, R> {
    ghost left = { λ _. None };

    ghost source_side = { λ peer. (None, peer.writes) };

    ghost read_faults = { λ peer. peer.reads };

    fn take(&mut self, into: &mut [u8]) -> Result<usize, Failed> {
        if self.is_late {
            self.reads = self.reads.saturating_add(1);
            return Err(Failed);
        }
        self.go_on();
        if let Some(n) = self.take_ahead(into) {
            self.note(into.get(..n).unwrap_or(&[]));
            return Ok(n);
        }
        let wait = left(
            self.rt,
            self.began,
            Duration::from_secs(if self.is_idle { IDLE } else { REQUEST }),
        );
        match read(&mut self.stream, wait, into) {
            Some(n) => {
                if self.is_idle && n > 0 {
                    self.is_idle = false;
                    self.began = Instant::now(self.rt).ok();
                }
                self.noted.read(&into[..n]);
                Ok(n)
            }
            None => {
                self.reads = self.reads.saturating_add(1);
                Err(Failed)
            }
        }
    }
}

impl<'a, R: SystemClock + Eprint> Sink for RealPeer<'a, R> {
    ghost held = { λ _. None };

    ghost sink_side = { λ peer. (None, peer.reads) };

    ghost write_faults = { λ peer. peer.writes };

    fn give(&mut self, piece: &[u8]) -> Result<usize, Failed> {
        if self.noted.has_another() {
            self.go_on();
        }
        if self.answered.is_none() {
            self.answered = Instant::now(self.rt).ok();
        }
        let wait = left(self.rt, self.answered, Duration::from_secs(ANSWER));
        match write(&mut self.stream, wait, piece) {
            Some(n) => {
                self.answer.give(&piece[..n]);
                self.whole = if n == piece.len() {
                    Some(Whole {
                        at: Instant::now(self.rt).ok(),
                        spent: self.spent(),
                    })
                } else {
                    None
                };
                Ok(n)
            }
            None => {
                self.writes = self.writes.saturating_add(1);
                Err(Failed)
            }
        }
    }

    fn end(&mut self) {
        self.is_last = true;
        // Where it can't be shut now the peer gets its end when it is settled.
        let _ = self.stream.shutdown(Shutdown::Write);
    }
}

impl<'a, R: SystemClock + Eprint> Peer for RealPeer<'a, R> {
    ghost source_side_is = { λ peer. refl };

    ghost sink_side_is = { λ peer. refl };
}
