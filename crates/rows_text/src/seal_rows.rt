// Texts that are signed, and tested under keys and sets.

ghost use Rattle.std.specs.Prelude.{IfOk};
ghost use Rattle.jws_form.specs.Compact.{IsCompact};

use crate::key_rows::set_of;
use crate::spelling::{cut, told, word};
use fed_base::{Alg, Duplicate, Memory, OpensLedgers, Plain, Steps, Text};
use fed_json::{Json, is_whole, read_tree};
use jwk_set::JwkSet;
use jws_form::{Compact, FormFault, algorithm_of};
use sealed::{SealFault, Sealed, Tested, check_sealed, is_sealed, test_key};
use slh_dsa::KeyPair;
use std::alloc::Global;

// The 48 seeds from 96 to 143.
const SEEDS: [u8; 48] = [
    96, 97, 98, 99, 100, 101, 102, 103, 104, 105, 106, 107, 108, 109, 110, 111, 112, 113, 114, 115,
    116, 117, 118, 119, 120, 121, 122, 123, 124, 125, 126, 127, 128, 129, 130, 131, 132, 133, 134,
    135, 136, 137, 138, 139, 140, 141, 142, 143,
];

/// Signs the claims by the key of that algorithm and the seeds from 96 to 143, and keeps the text for the rows behind it. Answers its
/// length, its first 581 bytes and its last 40.
pub fn seal(alloc: Global, given: &str, sealed: &mut Text) -> Result<Text, Memory> {
    let (alg, claims) = cut(given);
    let Some(alg) = algorithm_of(alg.as_bytes()) else {
        return word(alloc, "no algorithm");
    };
    match read_tree(alloc, claims.as_bytes()) {
        Ok(claims) => *sealed = signed(alloc, alg, &claims)?,
        Err(fault) => return told(alloc, &fault),
    }
    let text = sealed.as_slice();
    let mut ends = told(alloc, &text.len())?;
    ends.push(b' ')?;
    ends.append(text.get(..581).unwrap_or(b""))?;
    ends.append(b" .. ")?;
    ends.append(text.get(text.len().saturating_sub(40)..).unwrap_or(b""))?;
    Ok(ends)
}

fn signed(alloc: Global, alg: Alg, claims: &Json) -> Result<Text, Memory> {
    if !is_whole(claims) || !matches!(claims, Json::Object(_)) {
        return word(alloc, "no claims");
    }
    let typ = Text::of(alloc, b"entity-statement+jwt")?;
    sealed::seal(alloc, &KeyPair::from_seeds(alg, &SEEDS), &typ, claims)
}

fn taken_apart(alloc: Global, text: &[u8]) -> Result<Compact, FormFault>
    ensures { IfOk result (λ compact. IsCompact compact.whole compact) }
{
    jws_form::split(alloc, text)
}

/// Whether the text verifies under a key, which is given in base64url, what pair is kept then, and how many signatures were checked.
pub fn test<R: OpensLedgers>(
    rt: &R,
    alloc: Global,
    given: &str,
    sealed: &Text,
) -> Result<Text, Memory> {
    let public = base64url::decode_32(given.as_bytes()).unwrap_or([0; 32]);
    match taken_apart(alloc, sealed.as_slice()) {
        Ok(compact) => tested(rt, alloc, &compact, &public),
        Err(fault) => told(alloc, &fault),
    }
}

fn tested<R: OpensLedgers>(
    rt: &R,
    alloc: Global,
    compact: &Compact,
    public: &[u8; 32],
) -> Result<Text, Memory>
    requires { IsCompact compact.now.whole compact.now }
{
    let mut steps = Steps {
        ledger: Plain::new(rt),
    };
    let tested = test_key(alloc, compact, public, &mut steps)?;
    let copy = tested.copy(alloc);
    drop(tested);
    let mut answer = pair(alloc, copy?, compact.whole.as_slice(), public)?;
    answer.append(told(alloc, &steps.ledger.steps())?.as_slice())?;
    Ok(answer)
}

fn known_again(
    alloc: Global,
    seal: &Sealed,
    text: &[u8],
    public: &[u8; 32],
) -> Result<Text, Memory> {
    let known = Sealed::known(alloc, seal.text(), seal.public())?;
    let same = known.text().as_slice() == text && known.public() == *public;
    drop(known);
    word(alloc, if same { "yes " } else { "another pair " })
}

fn pair(alloc: Global, tested: Tested, text: &[u8], public: &[u8; 32]) -> Result<Text, Memory> {
    match tested {
        Tested::Yes(seal) => {
            let told = known_again(alloc, &seal, text, public);
            drop(seal);
            told
        },
        Tested::No(miss) => {
            let same = miss.text().as_slice() == text && miss.public() == *public;
            drop(miss);
            word(alloc, if same { "no " } else { "another pair " })
        },
    }
}

/// The key of a set under which the text verifies, or why it is sealed by none, and how many signatures were checked; then whether it is
/// sealed, and how many were checked with that.
pub fn check<R: OpensLedgers>(
    rt: &R,
    alloc: Global,
    given: &str,
    sealed: &Text,
) -> Result<Text, Memory> {
    check_bytes(rt, alloc, sealed.as_slice(), given)
}

/// The same of a text that is given.
pub fn check_text<R: OpensLedgers>(rt: &R, alloc: Global, given: &str) -> Result<Text, Memory> {
    let (text, set) = cut(given);
    check_bytes(rt, alloc, text.as_bytes(), set)
}

fn check_bytes<R: OpensLedgers>(
    rt: &R,
    alloc: Global,
    text: &[u8],
    set: &str,
) -> Result<Text, Memory> {
    match taken_apart(alloc, text) {
        Ok(compact) => {
            let told = check_compact(rt, alloc, &compact, set);
            drop(compact);
            told
        },
        Err(_) => word(alloc, "no text or no set"),
    }
}

fn check_compact<R: OpensLedgers>(
    rt: &R,
    alloc: Global,
    compact: &Compact,
    set: &str,
) -> Result<Text, Memory>
    requires { IsCompact compact.now.whole compact.now }
{
    match set_of(alloc, set.as_bytes()) {
        Ok(set) => {
            let told = checked(rt, alloc, compact, &set);
            drop(set);
            told
        },
        Err(_) => word(alloc, "no text or no set"),
    }
}

fn key_told(alloc: Global, checked: Result<Sealed, SealFault>) -> Result<Text, Memory> {
    match checked {
        Ok(seal) => {
            let public = seal.public();
            drop(seal);
            Text::of(alloc, base64url::encode_32(&public).as_slice())
        },
        Err(fault) => told(alloc, &fault),
    }
}

fn add(answer: &mut Text, part: Text) -> Result<(), Memory> {
    answer.push(b' ')?;
    answer.append(part.as_slice())
}

fn checked<R: OpensLedgers>(
    rt: &R,
    alloc: Global,
    compact: &Compact,
    set: &JwkSet,
) -> Result<Text, Memory>
    requires { IsCompact compact.now.whole compact.now }
{
    let mut steps = Steps {
        ledger: Plain::new(rt),
    };
    let mut answer = key_told(alloc, check_sealed(alloc, compact, set, &mut steps))?;
    add(&mut answer, told(alloc, &steps.ledger.steps())?)?;
    add(
        &mut answer,
        told(alloc, &is_sealed(alloc, compact, set, &mut steps)?)?,
    )?;
    add(&mut answer, told(alloc, &steps.ledger.steps())?)?;
    Ok(answer)
}
