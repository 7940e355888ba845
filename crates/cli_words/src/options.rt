// Options, their values and numbers among the words.

ghost use Rattle.std.specs.Prelude.{◌≡◌, ◌<◌, ◌≤◌, IfSome};
ghost use Rattle.std.specs.Option.{option_copied};
ghost use Rattle.fed_base.specs.Moments.{moment_limit};
ghost use Rattle.cli_words.specs.Options.{option_in, number_after, number_of, moment_in, count_in, count_of, says_yes};

use crate::moment::Moment;
use fed_base::{MOMENT_LIMIT, Text};

/// The value behind the first option of that name, where the words are pairs of an option and its value.
#[tactic(auto, unfolding(crate::specs::Options::option_in))]
pub fn option_in<'a>(words: &'a [Text], name: &[u8]) -> Option<&'a Text>
    ensures { option_copied result ≡ option_in name.now words.now }
{
    match words {
        [option, value, rest @ ..] => {
            if option.as_slice() == name {
                Some(value)
            } else {
                option_in(rest, name)
            }
        }
        _ => None,
    }
}

/// Whether the option's value is `yes`.
pub(crate) fn says_yes(words: &[Text], name: &[u8]) -> bool
    ensures { result ≡ says_yes name.now words.now }
{
    match option_in(words, name) {
        Some(word) => word.as_slice() == b"yes".as_slice(),
        None => false,
    }
}

/// The moment that the option's value gives.
pub fn moment_in(words: &[Text], name: &[u8]) -> Option<Moment>
    ensures { result ≡ moment_in name.now words.now }
{
    match option_in(words, name) {
        Some(value) => moment_of(value.as_slice()),
        None => None,
    }
}

/// The number that the option's value gives, from 1 up to the most that it may be.
pub fn count_in(words: &[Text], name: &[u8], most: u64) -> Option<u64>
    ensures number { result ≡ count_in name.now most words.now }
    ensures within { IfSome result (λ n. (1 ≤ n) × (n ≤ most)) }
{
    let value = option_in(words, name)?;
    count_of(value.as_slice(), most)
}

/// The number of these decimal digits, from 1 up to the most that it may be.
pub fn count_of(word: &[u8], most: u64) -> Option<u64>
    ensures number { result ≡ count_of most word.now }
    ensures within { IfSome result (λ n. (1 ≤ n) × (n ≤ most)) }
{
    let number = number_of(word)?;
    if 1 <= number && number <= most {
        Some(number)
    } else {
        None
    }
}

/// The moment of these decimal digits, without sign and without a leading zero, below 2^62.
pub fn moment_of(word: &[u8]) -> Option<Moment>
    ensures { result ≡ number_of word.now }
{
    Some(Moment::of(number_of(word)?))
}

/// The number of these decimal digits, without sign and without a leading zero, below 2^62.
pub(crate) fn number_of(word: &[u8]) -> Option<u64>
    ensures number { result ≡ number_of word.now }
    ensures small { IfSome result (λ n. n < moment_limit) }
{
    match word {
        [] => None,
        [b'0', _, ..] => None,
        _ => number_after(0, word),
    }
}

// The number that the digits make behind those of `number`.
#[tactic(auto, unfolding(crate::specs::Options::number_after))]
fn number_after(number: u64, digits: &[u8]) -> Option<u64>
    requires { number < moment_limit }
    ensures number { result ≡ number_after number digits.now }
    ensures small { IfSome result (λ n. n < moment_limit) }
{
    let Some((digit, rest)) = digits.split_first() else {
        return Some(number);
    };
    if !digit.is_ascii_digit() {
        return None;
    }
    let longer = u128::from(number) * 10 + u128::from(*digit - b'0');
    if longer < u128::from(MOMENT_LIMIT) {
        number_after(longer as u64, rest)
    } else {
        None
    }
}
