// The line that an answer leaves on standard error.

use crate::log_moment::LogMoment;
use crate::noted::Noted;
use crate::noted_answer::NotedAnswer;
use std::fmt;
use std::fmt::{Display, Formatter};
use std::io::Eprint;
use std::net::SocketAddr;
use std::time::{Clock as SystemClock, Duration};

/// How an answer is told on standard error.
#[derive(Clone, Copy, Debug, PartialEq, Eq, Drop)]
pub enum Log {
    /// Not at all.
    Off,
    /// In a line whose parts have a space between two.
    Lines,
    /// In a line that is an object of JSON.
    Json,
}

/// What the line tells: whom was answered what, and in what time. Where nothing was answered it tells what was asked.
#[derive(Drop)]
pub struct LogLine<'a> {
    pub from: SocketAddr,
    pub request: &'a Noted,
    pub answer: &'a NotedAnswer,
    pub spent: Duration,
}

impl<'a> LogLine<'a> {
    /// Writes the line.
    pub fn write<R: SystemClock + Eprint>(self, rt: &R, log: Log) {
        let moment = LogMoment::now(rt);
        // Nothing is left to be done where standard error can't be written.
        let _ = match log {
            Log::Off => Ok(()),
            Log::Lines => eprintln!(rt; "{}", Spaced { moment, line: self }),
            Log::Json => eprintln!(rt; "{}", Object { moment, line: self }),
        };
    }

    // Whether an entity was asked for that was to be resolved.
    fn resolves(&self) -> bool {
        let (_, path) = self.request.request();
        path.ends_with("/resolve")
    }
}

// A line whose parts have a space between two.
#[derive(Drop)]
struct Spaced<'a> {
    moment: LogMoment,
    line: LogLine<'a>,
}

impl<'a> Display for Spaced<'a> {
    fn fmt<W: fmt::Write>(&self, f: &mut Formatter<W>) -> fmt::Result {
        let (method, path) = self.line.request.request();
        let status = self.line.answer.status();
        let bytes = self.line.answer.bytes();
        let millis = self.line.spent.as_millis();
        write!(
            f,
            "{} {} {method} {path} {status} {bytes} {millis}",
            self.moment, self.line.from
        )?;
        if !self.line.resolves() {
            return Ok(());
        }
        write!(
            f,
            " {}",
            Meant(self.line.request.asked("sub").unwrap_or("-"))
        )?;
        match self.line.answer.error() {
            Some((error, description)) => write!(f, " {error} {description}"),
            None => Ok(()),
        }
    }
}

// A line that is an object of JSON (RFC 8259).
#[derive(Drop)]
struct Object<'a> {
    moment: LogMoment,
    line: LogLine<'a>,
}

impl<'a> Display for Object<'a> {
    fn fmt<W: fmt::Write>(&self, f: &mut Formatter<W>) -> fmt::Result {
        let (method, path) = self.line.request.request();
        let status = self.line.answer.status();
        let bytes = self.line.answer.bytes();
        let millis = self.line.spent.as_millis();
        write!(
            f,
            "{{\"time\":\"{}\",\"peer\":\"{}\"",
            self.moment, self.line.from
        )?;
        write!(
            f,
            ",\"method\":{},\"path\":{}",
            Quoted(method),
            Quoted(path)
        )?;
        write!(
            f,
            ",\"status\":{},\"bytes\":{bytes},\"ms\":{millis}",
            if status == "-" { "null" } else { status }
        )?;
        if self.line.resolves() {
            if let Some(sub) = self.line.request.asked("sub") {
                write!(f, ",\"sub\":\"{}\"", Meant(sub))?;
            }
            if let Some((error, description)) = self.line.answer.error() {
                write!(
                    f,
                    ",\"error\":{},\"description\":{}",
                    Quoted(error),
                    Quoted(description)
                )?;
            }
        }
        write!(f, "}}")
    }
}

// A text as JSON writes it, and `null` in the place of a dash. It holds no control characters.
#[derive(Clone, Copy, Drop)]
struct Quoted<'a>(&'a str);

impl<'a> Display for Quoted<'a> {
    fn fmt<W: fmt::Write>(&self, f: &mut Formatter<W>) -> fmt::Result {
        if self.0 == "-" {
            return write!(f, "null");
        }
        write!(f, "\"")?;
        for sign in self.0.chars() {
            if sign == '"' || sign == '\\' {
                write!(f, "\\")?;
            }
            write!(f, "{sign}")?;
        }
        write!(f, "\"")
    }
}

// A value of a form (application/x-www-form-urlencoded) as it was meant. A space and what isn't an ASCII letter, digit or sign is a star,
// and so are the quote and the backslash.
#[derive(Clone, Copy, Drop)]
struct Meant<'a>(&'a str);

impl<'a> Display for Meant<'a> {
    fn fmt<W: fmt::Write>(&self, f: &mut Formatter<W>) -> fmt::Result {
        let bytes = self.0.as_bytes();
        let mut read = 0;
        for at in 0..bytes.len() {
            if at >= read {
                if let Some((byte, length)) = bytes.get(at..).and_then(first_meant) {
                    read = at.saturating_add(length);
                    write!(f, "{}", char::from(byte))?;
                }
            }
        }
        Ok(())
    }
}

// The first byte that a form means, and by how many bytes it writes it.
fn first_meant(form: &[u8]) -> Option<(u8, usize)> {
    let (byte, length) = match form {
        [b'%', high, low, ..] => match (digit(*high), digit(*low)) {
            (Some(high), Some(low)) => (high << 4 | low, 3),
            _ => (b'%', 1),
        },
        [byte, ..] => (*byte, 1),
        [] => return None,
    };
    if byte.is_ascii_graphic() && byte != b'"' && byte != b'\\' {
        Some((byte, length))
    } else {
        Some((b'*', length))
    }
}

// The value of a hexadecimal digit.
fn digit(byte: u8) -> Option<u8> {
    match byte {
        b'0'..=b'9' => Some(byte - b'0'),
        b'a'..=b'f' => Some(byte - b'a' + 10),
        b'A'..=b'F' => Some(byte - b'A' + 10),
        _ => None,
    }
}
