// The system's TCP. It tells no bytes and no callers.

ghost use Rattle.std.specs.Prelude.{◌≡◌, ◌≤◌, true, None, is_some, option_map, length, IfSome, IfNone};

use crate::real_callers::RealCallers;
use crate::real_peer::RealPeer;
use crate::timed::{read, write};
use fed_base::{Failed, Memory};
use fed_ports::{Address, Network};
use fetch_time::{FETCH_SECONDS, FetchTime};
use network_notes::{Failures, Reason};
use std::alloc::Global;
use std::net::{Ipv4Addr, Net, SocketAddr, SocketAddrV4, TcpListener, TcpStream};
use std::os::fd::AsFd;
use std::time::{Clock as SystemClock, Duration};
use waiting_callers::{FetchLine, Log};

// In how many seconds a connection has to be opened.
const CONNECT: u64 = 3;

/// The network of the system. Connecting takes at most 3 seconds, an exchange 10 in all, and all exchanges of one network 30, or as many
/// seconds as were set: past them each call of an exchange fails at once.
#[derive(Drop)]
pub struct RealNetwork<
    'a,
    R: Net<Listener = TcpListener, Stream = TcpStream> + SystemClock + Eprint + Sync,
> {
    rt: &'a R,
    alloc: Global,
    ip: [u8; 4],
    log: Log,
    fetch_log: Log,
    time: FetchTime,
    stream: Option<TcpStream>,
    to: Option<Address>,
    handed: Option<TcpListener>,
    callers: Option<RealCallers>,
    port: u16,
    faults: u64,
    failures: Failures,
}

impl<
    'a,
    R: Net<Listener = TcpListener, Stream = TcpStream> + SystemClock + Eprint + Sync,
> RealNetwork<'a, R> {
    /// A network of which no call was made. It listens on the IPv4 address of these four numbers. Each answer of a peer leaves such a line
    /// on standard error, and so does a peer that is settled without one. An exchange that fails leaves one in the networks that it makes.
    pub fn new(rt: &'a R, alloc: Global, ip: [u8; 4], log: Log) -> RealNetwork<'a, R>
        ensures { ⟦<RealNetwork<'a, R> as Network>⟧.faults result ≡ 0 }
    {
        RealNetwork {
            rt,
            alloc,
            ip,
            log,
            fetch_log: Log::Off,
            time: FetchTime::of_seconds(FETCH_SECONDS),
            stream: None,
            to: None,
            handed: None,
            callers: None,
            port: 0,
            faults: 0,
            failures: Failures::new(),
        }
    }

    /// Which of its calls failed, and why, as the system said it.
    pub fn failures(&self) -> &Failures {
        &self.failures
    }
}

// Tells that an exchange with that address failed, and why: in the log too, where it isn't told yet.
fn tell<R: SystemClock + Eprint>(
    rt: &R,
    log: Log,
    to: Option<Address>,
    reason: Reason,
    failures: &mut Failures,
) {
    if let Some(to) = to {
        if failures.add(to, reason) {
            let at = socket_address(to.ip, to.port);
            let why = reason.as_str();
            FetchLine { at, why }.write(rt, log);
        }
    }
}

// Why an exchange that was open failed: it took too long, or the other side ended it.
fn reason_by<R: SystemClock>(rt: &R, time: &FetchTime) -> Reason {
    match time.left(rt) {
        Some(_) => Reason::Broken,
        None if time.is_over(rt) => Reason::Spent,
        None => Reason::Silent,
    }
}

impl<
    'a,
    R: Net<Listener = TcpListener, Stream = TcpStream> + SystemClock + Eprint + Sync,
> RealNetwork<'a, R> {
    /// Sets how many seconds all its exchanges take, and all those of each network that it makes from now on.
    pub fn set_fetch_seconds(&mut self, seconds: u64)
        ensures faults { ⟦<RealNetwork<'a, R> as Network>⟧.faults self.new ≡ ⟦<RealNetwork<'a, R> as Network>⟧.faults self.old }
        ensures port { ⟦<RealNetwork<'a, R> as Network>⟧.port self.new ≡ ⟦<RealNetwork<'a, R> as Network>⟧.port self.old }
    {
        self.time = FetchTime::of_seconds(seconds);
    }

    /// Sets the socket on which it listens, in the place of one of its own: whoever has it open keeps those that call, whether the program
    /// runs or not.
    pub fn set_listener(&mut self, listener: TcpListener)
        ensures faults { ⟦<RealNetwork<'a, R> as Network>⟧.faults self.new ≡ ⟦<RealNetwork<'a, R> as Network>⟧.faults self.old }
        ensures port { ⟦<RealNetwork<'a, R> as Network>⟧.port self.new ≡ ⟦<RealNetwork<'a, R> as Network>⟧.port self.old }
    {
        self.handed = Some(listener);
    }
}

// A listener at that port: on the socket that was handed over, where one was, and else on one of its own at that address.
fn listener<R: Net<Listener = TcpListener, Stream = TcpStream>>(
    rt: &R,
    handed: Option<TcpListener>,
    ip: [u8; 4],
    to: u16,
) -> Result<TcpListener, Reason> {
    match handed {
        Some(listener) => {
            if port_of(&listener) == Some(to) {
                Ok(listener)
            } else {
                Err(Reason::Elsewhere)
            }
        }
        None => match rt.bind(socket_address(ip, to)) {
            Ok(listener) => Ok(listener),
            Err(error) => Err(Reason::of(error.kind())),
        },
    }
}

// A connection to that address, opened in that time and in no more than there is for it.
fn connected<R: Net<Stream = TcpStream>>(
    rt: &R,
    to: &Address,
    left: Option<Duration>,
) -> Result<TcpStream, Reason> {
    let Some(left) = left else {
        return Err(Reason::Spent);
    };
    let most = Duration::from_secs(CONNECT);
    match rt.connect_timeout(socket_address(to.ip, to.port), left.min(most)) {
        Ok(stream) => {
            let _ = stream.set_nodelay(true);
            Ok(stream)
        }
        Err(error) => Err(match Reason::of(error.kind()) {
            Reason::Unconnected if left < most => Reason::Spent,
            reason => reason,
        }),
    }
}

// The port at which a socket of IPv4 listens.
fn port_of(listener: &TcpListener) -> Option<u16> {
    match listener.local_addr() {
        Ok(SocketAddr::V4(at)) => Some(at.port()),
        _ => None,
    }
}

/// The socket that the input is, and its address, where it is one of IPv4: `systemd` hands one over so (`StandardInput=socket`).
pub fn handed_over<F: AsFd>(input: &F) -> Option<(TcpListener, [u8; 4])> {
    let listener = TcpListener::from(input.as_fd().try_clone_to_owned().ok()?);
    match listener.local_addr() {
        Ok(SocketAddr::V4(at)) => Some((listener, at.ip().octets())),
        _ => None,
    }
}

fn socket_address(ip: [u8; 4], port: u16) -> SocketAddr {
    let [a, b, c, d] = ip;
    SocketAddr::V4(SocketAddrV4::new(Ipv4Addr::new(a, b, c, d), port))
}

impl<'a, R: Net<Listener = TcpListener, Stream = TcpStream> + SystemClock + Eprint + Sync> Network
    for RealNetwork<'a, R> {
    type Peer = RealPeer<'a, R>;

    ghost faults = { λ network. network.faults };

    ghost is_open = { λ network. is_some network.stream ≡ true };

    ghost port = { λ network. option_map (λ _. network.port) network.callers };

    ghost exchanges = { λ _. None };

    ghost callers = { λ _. None };

    ghost settled = { λ _. None };

    fn open(&mut self, to: &Address) -> Result<(), Failed> {
        self.stream = None;
        self.to = Some(*to);
        self.time.begin(self.rt);
        match connected(self.rt, to, self.time.left(self.rt)) {
            Ok(stream) => {
                self.stream = Some(stream);
                Ok(())
            }
            Err(reason) => {
                tell(self.rt, self.fetch_log, self.to, reason, &mut self.failures);
                self.faults = self.faults.saturating_add(1);
                Err(Failed)
            }
        }
    }

    fn send(&mut self, piece: &[u8]) -> Result<usize, Failed> {
        let Some(stream) = &mut self.stream else {
            unreachable!()
        };
        match write(stream, self.time.left(self.rt), piece) {
            Some(n) => Ok(n),
            None => {
                let reason = reason_by(self.rt, &self.time);
                tell(self.rt, self.fetch_log, self.to, reason, &mut self.failures);
                self.faults = self.faults.saturating_add(1);
                Err(Failed)
            }
        }
    }

    fn receive(&mut self, into: &mut [u8]) -> Result<usize, Failed> {
        let Some(stream) = &mut self.stream else {
            unreachable!()
        };
        match read(stream, self.time.left(self.rt), into) {
            Some(n) => Ok(n),
            None => {
                let reason = reason_by(self.rt, &self.time);
                tell(self.rt, self.fetch_log, self.to, reason, &mut self.failures);
                self.faults = self.faults.saturating_add(1);
                Err(Failed)
            }
        }
    }

    fn shut(&mut self) {
        self.stream = None;
        self.time.end(self.rt);
    }

    fn listen(&mut self, to: u16) -> Result<(), Failed> {
        match listener(self.rt, self.handed.take(), self.ip, to) {
            Ok(listener) => {
                self.callers = Some(RealCallers::new(self.rt, self.alloc, listener));
                self.port = to;
                Ok(())
            }
            Err(reason) => {
                let at = Address {
                    ip: self.ip,
                    port: to,
                };
                let _ = self.failures.add(at, reason);
                self.faults = self.faults.saturating_add(1);
                Err(Failed)
            }
        }
    }

    fn accept(&mut self) -> Result<RealPeer<'a, R>, Failed> {
        let Some(callers) = &mut self.callers else {
            unreachable!()
        };
        match callers.next(self.rt, self.log) {
            Some(peer) => Ok(peer),
            None => {
                self.faults = self.faults.saturating_add(1);
                Err(Failed)
            }
        }
    }

    fn settle(&mut self, _alloc: Global, peer: RealPeer<'a, R>) -> Result<(), Memory> {
        peer.close();
        Ok(())
    }

    fn another(&self, alloc: Global) -> Result<Self, Memory> {
        Ok(RealNetwork {
            rt: self.rt,
            alloc,
            ip: self.ip,
            log: self.log,
            fetch_log: self.log,
            time: self.time.anew(),
            stream: None,
            to: None,
            handed: None,
            callers: None,
            port: 0,
            faults: 0,
            failures: Failures::new(),
        })
    }
}
