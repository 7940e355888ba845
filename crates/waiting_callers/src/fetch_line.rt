// The line that a fetch leaves on standard error where it fails.

use crate::log_line::Log;
use crate::log_moment::LogMoment;
use std::io::Eprint;
use std::net::SocketAddr;
use std::time::Clock as SystemClock;

/// What the line tells of a fetch that failed: at which address, and why, in printable ASCII without quotes and backslashes.
#[derive(Drop)]
pub struct FetchLine<'a> {
    pub at: SocketAddr,
    pub why: &'a str,
}

impl<'a> FetchLine<'a> {
    /// Writes the line.
    pub fn write<R: SystemClock + Eprint>(self, rt: &R, log: Log) {
        let moment = LogMoment::now(rt);
        // Nothing is left to be done where standard error can't be written.
        let _ = match log {
            Log::Off => Ok(()),
            Log::Lines => eprintln!(rt; "{moment} fetch {}: {}", self.at, self.why),
            Log::Json => eprintln!(rt;
                "{{\"time\":\"{moment}\",\"fetch\":\"{}\",\"failed\":\"{}\"}}",
                self.at, self.why
            ),
        };
    }
}
