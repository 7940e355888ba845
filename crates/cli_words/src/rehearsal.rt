// How many parameters a rehearsal has.

ghost use Rattle.std.specs.Prelude.{◌≡◌};
ghost use Rattle.cli_words.specs.Rehearsals.{params_of, rehearsal_of};

use crate::options::{number_of, option_in};
use fed_base::Text;

// The most parameters that a rehearsal has.
const PARAMS: u64 = 200;

/// The number of parameters, where the words are the option `--params` and its value.
#[tactic(auto, unfolding(crate::specs::Rehearsals::rehearsal_of))]
pub(crate) fn params_in(words: &[Text]) -> Option<u64>
    ensures { result ≡ rehearsal_of words.now }
{
    if words.len() != 2 {
        return None;
    }
    let value = option_in(words, b"--params")?;
    params_of(value.as_slice())
}

/// The number of these decimal digits, from 0 to 200.
pub fn params_of(word: &[u8]) -> Option<u64>
    ensures { result ≡ params_of word.now }
{
    let number = number_of(word)?;
    if number <= PARAMS { Some(number) } else { None }
}
