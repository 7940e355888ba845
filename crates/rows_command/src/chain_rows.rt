// Rows of chains whose texts are sealed by keys of both algorithms.

use crate::judge_rows::copied;
use crate::run_rows;
use crate::seals::{Signer, sealed_claims};
use fed_base::{Alg, Memory, OpensLedgers, Text};
use std::alloc::Global;
use std::str;
use std::thread::Threads;

/// The status, what is written and the file `r` after the command of these words, this file, and the chain of these texts.
pub fn told<R: Threads + OpensLedgers + Sync>(
    rt: &R,
    alloc: Global,
    given: &str,
) -> Result<String, Memory> {
    let (words, given) = given.split_once('\t').unwrap_or((given, ""));
    let (file, texts) = given.split_once('\t').unwrap_or((given, ""));
    match chain_of(alloc, texts)? {
        Some(chain) => {
            let input = str::from_utf8(chain.as_slice()).unwrap_or("");
            run_rows::answered(rt, alloc, words, run_rows::faults_of("none"), file, input)
        }
        None => copied(alloc, "no claims"),
    }
}

// The JSON list of the texts, or nothing where one of them isn't of its form.
fn chain_of(alloc: Global, texts: &str) -> Result<Option<Text>, Memory> {
    let mut chain = Text::new(alloc);
    let mut before = b'[';
    for part in texts.split('\t') {
        let Some(text) = text_of(alloc, part)? else {
            return Ok(None);
        };
        chain.push(before)?;
        chain.push(b'"')?;
        chain.append(text.as_slice())?;
        chain.push(b'"')?;
        before = b',';
    }
    chain.push(b']')?;
    Ok(Some(chain))
}

// The text of a part: the algorithm and the number of its key, and its claims.
fn text_of(alloc: Global, part: &str) -> Result<Option<Text>, Memory> {
    let (name, rest) = part.split_once(' ').unwrap_or((part, ""));
    let (number, claims) = rest.split_once(' ').unwrap_or((rest, ""));
    let alg = if name == "fast" {
        Alg::Fast
    } else {
        Alg::Small
    };
    let number = number.parse::<u8>().unwrap_or(0);
    sealed_claims(alloc, Signer { alg, number }, claims)
}
