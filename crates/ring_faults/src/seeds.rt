// What is wrong with the seeds of a key.

ghost use Rattle.ring_faults.specs.Faults.{IsSeedsFault};

/// Why an input isn't the seeds of a key, 96 hexadecimal digits.
#[derive(Clone, Copy, PartialEq, Eq, Debug, Drop)]
pub enum SeedsFault {
    /// It begins with `0x`.
    Prefix,
    /// The byte at this place, counted from 0, is the first that is no hexadecimal digit, and is a space or a line end.
    Blank(u64),
    /// The byte at this place, counted from 0, is the first that is no hexadecimal digit, and no blank.
    Digit(u64),
    /// There are so many digits.
    Length(u64),
}

/// Why the input isn't the seeds of a key.
pub fn seeds_fault(input: &[u8]) -> SeedsFault
    ensures { IsSeedsFault input.now result }
{
    if input.starts_with(b"0x") {
        return SeedsFault::Prefix;
    }
    match input.iter().position(|byte| !byte.is_ascii_hexdigit()) {
        Some(place) if is_blank(input.get(place)) => SeedsFault::Blank(place as u64),
        Some(place) => SeedsFault::Digit(place as u64),
        None => SeedsFault::Length(input.len() as u64),
    }
}

// Whether there is a byte, and it parts digits as those who print them do.
fn is_blank(byte: Option<&u8>) -> bool {
    matches!(byte, Some(b' ' | b'\t' | b'\n' | b'\r'))
}

/// Whether the seeds are one byte, 48 times.
pub fn is_one_byte(seeds: &[u8; 48]) -> bool {
    let first = seeds[0];
    seeds.iter().all(|byte| *byte == first)
}
