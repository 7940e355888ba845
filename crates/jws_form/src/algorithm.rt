// The names of the algorithms.

ghost use Rattle.std.specs.Prelude.{◌≡◌, ◌↔◌, Some};
ghost use Rattle.fed_base.specs.declared.algorithm.Alg.{Alg};
ghost use Rattle.jws_form.specs.Header.{algorithm, algorithm_of};

use fed_base::Alg;

const SMALL: &[u8] = b"SLH-DSA-SHA2-128s";

const FAST: &[u8] = b"SLH-DSA-SHA2-128f";

/// The value of `alg` in the headers and keys of this algorithm: its parameter set's name (FIPS 205 section 11,
/// RFC 7515 section 4.1.1), 17 characters.
#[tactic(auto, unfolding(crate::specs::Header::algorithm_of))]
pub fn algorithm_name(alg: Alg) -> &'static [u8]
    ensures name { result.now ≡ algorithm alg }
    ensures reads_back { algorithm_of result.now ≡ Some alg }
{
    match alg {
        Alg::Small => SMALL,
        Alg::Fast => FAST,
    }
}

/// The algorithm of that name, and `None` where it is the name of neither.
#[tactic(auto, unfolding(crate::specs::Header::algorithm_of))]
pub fn algorithm_of(name: &[u8]) -> Option<Alg>
    ensures exact { result ≡ algorithm_of name.now }
    ensures only { (alg : Alg) → (result ≡ Some alg) ↔ (name.now ≡ algorithm alg) }
{
    if name == SMALL {
        Some(Alg::Small)
    } else if name == FAST {
        Some(Alg::Fast)
    } else {
        None
    }
}
