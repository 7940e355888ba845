// Rows taken apart, and answers put together.

ghost use Rattle.std.specs.Prelude.{◌<◌};
ghost use Rattle.fed_base.specs.Moments.{moment_limit};

use fed_base::{Alg, Duplicate, MOMENT_LIMIT, Memory, Text};
use hex::FromHex;
use key_ring::{OrderFault, RevokeReason, RingFault};
use std::alloc::Global;

/// The part before the first tab and what stands behind it; the whole and nothing where there is no tab.
pub(crate) fn cut(text: &str) -> (&str, &str) {
    text.split_once('\t').unwrap_or((text, ""))
}

/// The word before the first space and what stands behind it; the whole and nothing where there is no space.
pub(crate) fn cut_word(text: &str) -> (&str, &str) {
    text.split_once(' ').unwrap_or((text, ""))
}

/// The moment that the digits say.
pub(crate) fn moment(digits: &str) -> u64
    ensures { result < moment_limit }
{
    digits.parse::<u64>().unwrap_or(0) % MOMENT_LIMIT
}

/// The algorithm that the word says.
pub(crate) fn algorithm(word: &str) -> Alg {
    if word == "128f" {
        Alg::Fast
    } else {
        Alg::Small
    }
}

/// The seeds that the digits say.
pub(crate) fn seeds(digits: &str) -> [u8; 48] {
    <[u8; 48]>::from_hex(digits.as_bytes()).unwrap_or([0; 48])
}

/// The reason that the word says.
pub(crate) fn reason(word: &str) -> RevokeReason {
    match word {
        "compromised" => RevokeReason::Compromised,
        "superseded" => RevokeReason::Superseded,
        _ => RevokeReason::Unspecified,
    }
}

/// Adds an answer, with a tab before it unless it is the first.
pub(crate) fn add(out: &mut Text, answer: &[u8]) -> Result<(), Memory> {
    if !out.is_empty() {
        out.push(b'\t')?;
    }
    out.append(answer)
}

/// Adds a fault: its name, and the text that it carries.
pub(crate) fn add_fault(alloc: Global, out: &mut Text, fault: &RingFault) -> Result<(), Memory> {
    match fault.copy(alloc)? {
        RingFault::Shape => add(out, b"Shape"),
        RingFault::Known(kid) => add_named(out, b"Known ", &kid),
        RingFault::Unknown(kid) => add_named(out, b"Unknown ", &kid),
        RingFault::Order(OrderFault::Exp) => add(out, b"Order Exp"),
        RingFault::Order(OrderFault::NotLive) => add(out, b"Order NotLive"),
        RingFault::Order(OrderFault::LastLive) => add(out, b"Order LastLive"),
        RingFault::Order(OrderFault::Full) => add(out, b"Order Full"),
        RingFault::StoreFault => add(out, b"StoreFault"),
        RingFault::Memory => Err(Memory),
    }
}

fn add_named(out: &mut Text, fault: &[u8], kid: &Text) -> Result<(), Memory> {
    add(out, fault)?;
    out.append(kid.as_slice())
}
