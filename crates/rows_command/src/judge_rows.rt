// Rows of the judgement of a chain of one text whose signature was tested under one key.

ghost use Rattle.std.specs.Prelude.{All, IfOk};
ghost use Rattle.jws_form.specs.Compact.{IsCompact};
ghost use Rattle.chain_check.specs.Judging.{IsOfItsText};

use crate::seals::{Signer, sealed_claims};
use base64url::decode_32;
use chain_check::{Judged, Reason, Tried, Verdict, judge};
use entity_id::EntityId;
use fed_base::{Alg, Duplicate, Memory, OpensLedgers, Plain, Seq, Steps, Text};
use fed_json::read_tree;
use jwk_set::JwkSet;
use jws_form::{Compact, FormFault, split};
use sealed::{Tested, test_key};
use std::alloc::Global;
use std::str;

// What is asked of a chain.
#[derive(Drop)]
struct Question<'a> {
    public: [u8; 32],
    moment: u64,
    anchor: &'a str,
    keys: &'a str,
    claims: &'a str,
}

/// The text itself.
pub fn copied(alloc: Global, text: &str) -> Result<String, Memory> {
    Ok(format!(in alloc; "{text}")?)
}

/// What is found of the claims, sealed by the key of the seeds from 96 to 143 and tested under a key, at a moment and for an anchor and its
/// keys.
pub fn told<R: OpensLedgers>(rt: &R, alloc: Global, given: &str) -> Result<String, Memory> {
    let (public, given) = given.split_once('\t').unwrap_or((given, ""));
    let (moment, given) = given.split_once('\t').unwrap_or((given, ""));
    let (anchor, given) = given.split_once('\t').unwrap_or((given, ""));
    let (keys, claims) = given.split_once('\t').unwrap_or((given, ""));
    let question = Question {
        public: decode_32(public.as_bytes()).unwrap_or([0; 32]),
        moment: moment.parse::<u64>().unwrap_or(0),
        anchor,
        keys,
        claims,
    };
    let Some(text) = sealed(alloc, &question)? else {
        return copied(alloc, "no claims");
    };
    match taken_apart(alloc, text.as_slice()) {
        Ok(compact) => {
            let told = judged(rt, alloc, &compact, &question);
            drop(compact);
            told
        }
        Err(_) => copied(alloc, "no sealed text"),
    }
}

// The claims, sealed by the key of the seeds from 96 to 143.
fn sealed(alloc: Global, question: &Question) -> Result<Option<Text>, Memory> {
    let signer = Signer {
        alg: Alg::Small,
        number: 2,
    };
    sealed_claims(alloc, signer, question.claims)
}

fn taken_apart(alloc: Global, text: &[u8]) -> Result<Compact, FormFault>
    ensures { IfOk result (λ compact. IsCompact compact.whole compact) }
{
    split(alloc, text)
}

// This text, with what its test under a key tells.
fn tested<R: OpensLedgers>(
    rt: &R,
    alloc: Global,
    compact: &Compact,
    public: &[u8; 32],
) -> Result<Tried, Memory>
    requires { IsCompact compact.now.whole compact.now }
    ensures { IfOk result IsOfItsText }
{
    let mut steps = Steps {
        ledger: Plain::new(rt),
    };
    let mut tried = Tried {
        text: compact.whole.copy(alloc)?,
        seals: Seq::new(alloc),
        misses: Seq::new(alloc),
    };
    match test_key(alloc, compact, public, &mut steps)? {
        Tested::Yes(seal) => tried.seals.push(seal)?,
        Tested::No(miss) => tried.misses.push(miss)?,
    }
    Ok(tried)
}

// The chain of this text alone.
fn tested_chain<R: OpensLedgers>(
    rt: &R,
    alloc: Global,
    compact: &Compact,
    public: &[u8; 32],
) -> Result<Seq<Tried>, Memory>
    requires { IsCompact compact.now.whole compact.now }
    ensures { IfOk result (All IsOfItsText) }
{
    let mut chain = Seq::new(alloc);
    chain.push(tested(rt, alloc, compact, public)?)?;
    Ok(chain)
}

fn judged<R: OpensLedgers>(
    rt: &R,
    alloc: Global,
    compact: &Compact,
    question: &Question,
) -> Result<String, Memory>
    requires { IsCompact compact.now.whole compact.now }
{
    let chain = tested_chain(rt, alloc, compact, &question.public)?;
    let told = by_anchor(alloc, &chain, question);
    drop(chain);
    told
}

fn by_anchor(alloc: Global, chain: &Seq<Tried>, question: &Question) -> Result<String, Memory>
    requires { All IsOfItsText chain.now }
{
    match EntityId::of(alloc, question.anchor.as_bytes())? {
        Some(anchor) => by_keys(alloc, chain, &anchor, question),
        None => copied(alloc, "no anchor"),
    }
}

fn keys(alloc: Global, set: &str) -> Option<JwkSet> {
    match read_tree(alloc, set.as_bytes()) {
        Ok(tree) => {
            let read = JwkSet::read(alloc, &tree);
            drop(tree);
            match read {
                Ok(keys) => Some(keys),
                Err(_) => None,
            }
        }
        Err(_) => None,
    }
}

fn by_keys(
    alloc: Global,
    chain: &Seq<Tried>,
    anchor: &EntityId,
    question: &Question,
) -> Result<String, Memory>
    requires { All IsOfItsText chain.now }
{
    match keys(alloc, question.keys) {
        Some(keys) => {
            let judged = judge(alloc, chain, anchor, &keys, question.moment);
            drop(keys);
            judgement(alloc, judged?)
        }
        None => copied(alloc, "no keys"),
    }
}

fn judgement(alloc: Global, judged: Judged) -> Result<String, Memory> {
    let told = answer(alloc, &judged);
    drop(judged);
    told
}

fn answer(alloc: Global, judged: &Judged) -> Result<String, Memory> {
    match judged {
        Judged::Told(Verdict::Valid(resolved)) => Ok(format!(in alloc; "valid {}", resolved.exp)?),
        Judged::Told(Verdict::Refused { place, reason }) => {
            let times = matches!(reason, Reason::Times);
            Ok(format!(in alloc; "refused {place}, by its times: {times}")?)
        }
        Judged::Untried { place, public } => {
            let public = base64url::encode(alloc, public.as_slice())?;
            Ok(format!(in alloc;
                "untried {place} {:?}",
                str::from_utf8(public.as_slice()).unwrap_or("")
            )?)
        }
    }
}
