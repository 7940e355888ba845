// Rows that look whether the kept mark is good.

use crate::words::{add_number, cut};
use entity_id::EntityId;
use entity_statement::{MarkEntry, Statement, StatementFault};
use fed_base::{Duplicate, Memory, OpensLedgers, Plain, Steps, Text};
use fed_json::read_tree;
use jwk_set::JwkSet;
use std::alloc::Global;
use trust_mark::{MarkReason, MarkVerdict, verify_mark};

// The claims of a configuration of https://ta.example that says this of trust marks.
fn anchor_claims(alloc: Global, marks: &str) -> Result<Text, Memory> {
    let mut claims = Text::of(
        alloc,
        b"{\"iss\":\"https://ta.example\",\"sub\":\"https://ta.example\",\"iat\":0,\"exp\":1,\"jwks\":{\"keys\":[]},",
    )?;
    claims.append(marks.as_bytes())?;
    claims.push(b'}')?;
    Ok(claims)
}

fn keys(alloc: Global, set: &str) -> Option<JwkSet> {
    match read_tree(alloc, set.as_bytes()) {
        Ok(tree) => {
            let read = JwkSet::read(alloc, &tree);
            drop(tree);
            match read {
                Ok(keys) => Some(keys),
                Err(_) => None,
            }
        },
        Err(_) => None,
    }
}

fn reason_word(reason: MarkReason) -> &'static [u8] {
    match reason {
        MarkReason::Form => b"Form",
        MarkReason::Subject => b"Subject",
        MarkReason::Kind => b"Kind",
        MarkReason::Unlisted => b"Unlisted",
        MarkReason::Issuer => b"Issuer",
        MarkReason::Times => b"Times",
        MarkReason::Signature => b"Signature",
        MarkReason::Delegation => b"Delegation",
    }
}

fn verdict_told(alloc: Global, verdict: MarkVerdict) -> Result<Text, Memory> {
    match verdict {
        MarkVerdict::Good(Some(exp)) => {
            let mut out = Text::of(alloc, b"Good")?;
            add_number(alloc, &mut out, exp)?;
            Ok(out)
        },
        MarkVerdict::Good(None) => Text::of(alloc, b"Good"),
        MarkVerdict::Bad(reason) => Text::of(alloc, reason_word(reason)),
    }
}

// What is answered on the entry by these, with the number of signatures that were tested.
fn told<R: OpensLedgers>(
    rt: &R,
    alloc: Global,
    moment: &str,
    entry: &MarkEntry,
    leaf: &EntityId,
    anchor: &Statement,
    keys: &JwkSet,
) -> Result<Text, Memory> {
    let t = moment.parse::<u64>().unwrap_or(0);
    let mut steps = Steps {
        ledger: Plain::new(rt),
    };
    let verdict = verify_mark(alloc, entry, leaf, anchor, keys, t, &mut steps)?;
    let mut out = verdict_told(alloc, verdict)?;
    add_number(alloc, &mut out, steps.ledger.steps())?;
    Ok(out)
}

// The same by a key set that is yet to be read.
fn by_keys<R: OpensLedgers>(
    rt: &R,
    alloc: Global,
    moment: &str,
    entry: &MarkEntry,
    leaf: &EntityId,
    anchor: &Statement,
    set: &str,
) -> Result<Text, Memory> {
    match keys(alloc, set) {
        Some(keys) => {
            let told = told(rt, alloc, moment, entry, leaf, anchor, &keys);
            drop(keys);
            told
        },
        None => Text::of(alloc, b"no keys"),
    }
}

// The same by a configuration too, where it is one.
fn by_statement<R: OpensLedgers>(
    rt: &R,
    alloc: Global,
    moment: &str,
    entry: &MarkEntry,
    leaf: &EntityId,
    anchor: Result<Statement, StatementFault>,
    set: &str,
) -> Result<Text, Memory> {
    match anchor {
        Ok(anchor) => {
            let told = by_keys(rt, alloc, moment, entry, leaf, &anchor, set);
            drop(anchor);
            told
        },
        Err(_) => Text::of(alloc, b"no anchor"),
    }
}

// The same by a configuration that is yet to be read.
fn by_anchor<R: OpensLedgers>(
    rt: &R,
    alloc: Global,
    moment: &str,
    entry: &MarkEntry,
    leaf: &EntityId,
    given: &str,
) -> Result<Text, Memory> {
    let (marks, set) = cut(given);
    let claims = anchor_claims(alloc, marks)?;
    match read_tree(alloc, claims.as_slice()) {
        Ok(tree) => {
            let anchor = Statement::of_claims(alloc, tree);
            by_statement(rt, alloc, moment, entry, leaf, anchor, set)
        },
        Err(_) => Text::of(alloc, b"no anchor"),
    }
}

// The same for an entity that is yet to be read.
fn by_leaf<R: OpensLedgers>(
    rt: &R,
    alloc: Global,
    moment: &str,
    entry: &MarkEntry,
    given: &str,
) -> Result<Text, Memory> {
    let (leaf, given) = cut(given);
    match EntityId::of(alloc, leaf.as_bytes())? {
        Some(leaf) => by_anchor(rt, alloc, moment, entry, &leaf, given),
        None => Text::of(alloc, b"no leaf"),
    }
}

/// `verify MOMENT TYPE LEAF ANCHOR KEYS`: until when the kept mark is good, as an entry of this type, or the first reason
/// for which it isn't, and how many signatures were tested. `ANCHOR` is what the trust anchor's configuration says of marks.
pub(crate) fn verify<R: OpensLedgers>(
    rt: &R,
    alloc: Global,
    given: &str,
    kept: &Text,
) -> Result<Text, Memory> {
    let (moment, given) = cut(given);
    let (mark_type, given) = cut(given);
    let mark_type = Text::of(alloc, mark_type.as_bytes())?;
    let text = kept.copy(alloc)?;
    let entry = MarkEntry { mark_type, text };
    by_leaf(rt, alloc, moment, &entry, given)
}
