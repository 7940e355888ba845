// Where the requests of one connection end, by what was read of them.

// How many bytes of a header line are kept: more than those of a `Content-Length` that is taken.
const KEPT: usize = 64;

// What ends a head.
const BLANK: &[u8] = b"\r\n\r\n";

/// How far the request that is being read has come. Its head ends with the first empty line, and as many bytes follow as it states.
#[derive(Drop)]
pub struct RequestEnds {
    begun: bool,
    line: [u8; KEPT],
    kept: usize,
    blank: usize,
    length: u64,
    body: u64,
}

// The number that a `Content-Length` line in lower case states.
fn length_of(line: &[u8]) -> Option<u64> {
    let text = std::str::from_utf8(line).ok()?;
    let (name, value) = text.split_once(':')?;
    if name != "content-length" {
        return None;
    }
    value.trim_ascii().parse().ok()
}

impl RequestEnds {
    /// Nothing was read yet.
    pub fn new() -> RequestEnds {
        RequestEnds {
            begun: false,
            line: [0; KEPT],
            kept: 0,
            blank: 0,
            length: 0,
            body: 0,
        }
    }

    /// Whether a request has begun that hasn't ended. Empty lines before one are none of it.
    pub fn has_begun(&self) -> bool {
        self.begun
    }

    /// Goes on by the next byte. Whether a request ends with it.
    pub fn step(&mut self, byte: u8) -> bool {
        if self.body > 0 {
            self.body -= 1;
            self.begun = self.body > 0;
            return !self.begun;
        }
        self.note(byte);
        self.begun |= byte != b'\r' && byte != b'\n';
        if self.blank < BLANK.len() {
            return false;
        }
        self.blank = 0;
        self.body = self.length;
        self.length = 0;
        self.begun = self.body > 0;
        !self.begun
    }

    // Notes a byte of a head: how much of an empty line is there, and the length that a line states.
    fn note(&mut self, byte: u8) {
        self.blank = match BLANK.get(self.blank) {
            Some(next) if *next == byte => self.blank + 1,
            _ => usize::from(byte == b'\r'),
        };
        if byte != b'\n' {
            if self.kept < KEPT {
                self.line[self.kept] = byte.to_ascii_lowercase();
                self.kept += 1;
            }
            return;
        }
        if let Some(length) = length_of(self.line.get(..self.kept).unwrap_or(&[])) {
            self.length = length;
        }
        self.kept = 0;
    }
}
