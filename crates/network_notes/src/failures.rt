// Why calls of the system's network failed.

use fed_ports::Address;
use std::io::ErrorKind;

/// How many failures are told at most.
const MOST: usize = 8;

/// Why the system didn't do what was asked of it.
#[derive(Clone, Copy, Debug, PartialEq, Eq, Drop)]
pub enum Reason {
    /// Nobody listens at the address.
    Refused,
    /// The address wasn't connected to within 3 seconds.
    Unconnected,
    /// No way leads to the address.
    Unreachable,
    /// The exchange wasn't done within 10 seconds.
    Silent,
    /// The time that all exchanges have together was over.
    Spent,
    /// The other side reset or shut the connection.
    Broken,
    /// Another program listens at the address.
    InUse,
    /// This user may not do so.
    Forbidden,
    /// The address is none of this machine.
    NotHere,
    /// The socket that was handed over is at another address.
    Elsewhere,
    /// Anything else.
    Other,
}

impl Reason {
    /// The reason that the system gives by an error of this kind.
    pub fn of(kind: ErrorKind) -> Reason {
        match kind {
            ErrorKind::ConnectionRefused => Reason::Refused,
            ErrorKind::TimedOut | ErrorKind::WouldBlock => Reason::Unconnected,
            ErrorKind::HostUnreachable | ErrorKind::NetworkUnreachable | ErrorKind::NetworkDown =>
                Reason::Unreachable,
            ErrorKind::ConnectionReset | ErrorKind::ConnectionAborted | ErrorKind::BrokenPipe => {
                Reason::Broken
            }
            ErrorKind::AddrInUse => Reason::InUse,
            ErrorKind::PermissionDenied => Reason::Forbidden,
            ErrorKind::AddrNotAvailable => Reason::NotHere,
            _ => Reason::Other,
        }
    }

    /// What is said of it, in printable ASCII.
    pub fn as_str(self) -> &'static str {
        match self {
            Reason::Refused => "connection refused; nobody listens there",
            Reason::Unconnected => "not connected within 3 seconds",
            Reason::Unreachable => "no way leads there",
            Reason::Silent => "not answered within 10 seconds",
            Reason::Spent => "the time for all that one call fetches was over",
            Reason::Broken => "the connection was reset",
            Reason::InUse => "in use by another program",
            Reason::Forbidden => "permission denied",
            Reason::NotHere => "this machine has no such address",
            Reason::Elsewhere => "the socket that was handed over is at another port",
            Reason::Other => "the system refused it",
        }
    }
}

/// A call that failed: at which address, and why.
#[derive(Clone, Copy, Debug, PartialEq, Eq, Drop)]
pub struct Failure {
    /// Where a connection was asked for, or where it was to be listened.
    pub at: Address,
    /// Why that failed.
    pub reason: Reason,
}

/// The calls of a network that failed, in order: the first eight that differ.
#[derive(Clone, Copy, Debug, Drop)]
pub struct Failures {
    told: [Option<Failure>; MOST],
}

impl Failures {
    /// No failure.
    pub fn new() -> Failures {
        Failures { told: [None; MOST] }
    }

    /// The failures, each in its place; behind the last there are none.
    pub fn as_slice(&self) -> &[Option<Failure>] {
        &self.told
    }

    /// Tells one failure more, where it isn't told yet and there is a place for it, and whether it did.
    pub fn add(&mut self, at: Address, reason: Reason) -> bool {
        let failure = Failure { at, reason };
        for place in &mut self.told {
            match place {
                Some(told) => if *told == failure {
                    return false;
                },
                None => {
                    *place = Some(failure);
                    return true;
                }
            }
        }
        false
    }
}
