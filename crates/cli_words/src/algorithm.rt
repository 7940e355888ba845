// The names of signature algorithms among the words.

ghost use Rattle.std.specs.Prelude.{◌≡◌};
ghost use Rattle.cli_words.specs.Algorithms.{alg_in, alg_of};

use crate::options::option_in;
use fed_base::{Alg, Text};

/// The algorithm of that name: `128s` is SLH-DSA-SHA2-128s, `128f` is SLH-DSA-SHA2-128f (FIPS 205 section 11).
pub fn alg_of(word: &[u8]) -> Option<Alg>
    ensures { result ≡ alg_of word.now }
{
    if word == b"128s".as_slice() {
        Some(Alg::Small)
    } else if word == b"128f".as_slice() {
        Some(Alg::Fast)
    } else {
        None
    }
}

/// The algorithm that the option `--alg` names.
pub(crate) fn alg_in(words: &[Text]) -> Option<Alg>
    ensures { result ≡ alg_in words.now }
{
    let word = option_in(words, b"--alg")?;
    alg_of(word.as_slice())
}
