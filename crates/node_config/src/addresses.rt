// Addresses as texts.

ghost use Rattle.std.specs.Prelude.{◌≡◌, [], IfOk, None};
ghost use Rattle.std.specs.Option.{option_and_then};
ghost use Rattle.node_config.specs.Addresses.{digit_of, ip_of, numbers_after, step_of, with_digit};

use fed_base::{Memory, Seq};
use std::alloc::Global;

// The full stop between the numbers.
const STOP: u8 = b'.';

/// The four numbers of an address: whole numbers below 256 in decimal digits, without leading zeros, with full stops between them.
#[tactic(auto, unfolding(crate::specs::Addresses::ip_of))]
pub(crate) fn read_ip(alloc: Global, text: &[u8]) -> Result<Option<[u8; 4]>, Memory>
    ensures { IfOk result (λ ip. ip ≡ ip_of text.now) }
{
    let Some(numbers) = read_numbers(alloc, text)? else {
        return Ok(None);
    };
    match numbers.as_slice() {
        [a, b, c, d] => Ok(Some([*a, *b, *c, *d])),
        _ => Ok(None),
    }
}

// What a byte is behind the digits that were read of a number.
#[derive(Clone, Copy, Drop)]
pub(crate) enum Progress {
    // The number with one more digit.
    Digit(u8),
    // The full stop behind the number.
    Stop(u8),
    Neither,
}

// The numbers of a text.
#[tactic(auto, unfolding(crate::specs::Addresses::numbers_after))]
fn read_numbers(alloc: Global, text: &[u8]) -> Result<Option<Seq<u8>>, Memory>
    ensures { IfOk result (λ numbers. numbers ≡ numbers_after [] None text.now) }
{
    let mut done = Seq::new(alloc);
    let mut begun = None;
    for &byte in text {
        match step(begun, byte) {
            Progress::Digit(number) => begun = Some(number),
            Progress::Stop(number) => {
                done.push(number)?;
                begun = None;
            },
            Progress::Neither => return Ok(None),
        }
    }
    let Some(last) = begun else {
        return Ok(None);
    };
    done.push(last)?;
    Ok(Some(done))
}

fn step(begun: Option<u8>, byte: u8) -> Progress
    ensures { result ≡ step_of begun byte }
{
    match (with_digit(begun, byte), begun) {
        (Some(number), _) => Progress::Digit(number),
        (None, Some(number)) if byte == STOP => Progress::Stop(number),
        _ => Progress::Neither,
    }
}

// One more digit of a number below 256; none follows a leading zero.
fn with_digit(before: Option<u8>, byte: u8) -> Option<u8>
    ensures { result ≡ option_and_then (with_digit before) (digit_of byte) }
{
    if !byte.is_ascii_digit() {
        return None;
    }
    let digit = byte - b'0';
    match before {
        None => Some(digit),
        Some(0) => None,
        Some(number) => number.checked_mul(10)?.checked_add(digit),
    }
}
