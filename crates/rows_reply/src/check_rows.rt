// Rows that check a kept reply.

use crate::kept::Kept;
use crate::words::{add_number, add_word, cut};
use chain_check::Reason;
use entity_id::EntityId;
use fed_base::{Memory, OpensLedgers, Plain, Steps, Text};
use fed_json::read_tree;
use jwk_set::JwkSet;
use reply_check::{Claimed, Flaw, ReplyReason, ReplyVerdict, check_reply};
use std::alloc::Global;
use trust_mark::MarkReason;

// The key set of a text, where it is one.
fn keys_in(alloc: Global, text: &[u8]) -> Option<JwkSet> {
    match read_tree(alloc, text) {
        Ok(tree) => {
            let read = JwkSet::read(alloc, &tree);
            drop(tree);
            match read {
                Ok(keys) => Some(keys),
                Err(_) => None,
            }
        },
        Err(_) => None,
    }
}

fn mark_word(reason: MarkReason) -> &'static [u8] {
    match reason {
        MarkReason::Form => b"Form",
        MarkReason::Subject => b"Subject",
        MarkReason::Kind => b"Kind",
        MarkReason::Unlisted => b"Unlisted",
        MarkReason::Issuer => b"Issuer",
        MarkReason::Times => b"Times",
        MarkReason::Signature => b"Signature",
        MarkReason::Delegation => b"Delegation",
    }
}

fn chain_word(reason: &Reason) -> &'static [u8] {
    match reason {
        Reason::Form => b"Form",
        Reason::Names => b"Names",
        Reason::Times => b"Times",
        Reason::Signature => b"Signature",
        Reason::PathLength => b"PathLength",
        Reason::Name => b"Name",
        Reason::Conflict { .. } => b"Conflict",
        Reason::Policy { .. } => b"Policy",
    }
}

fn placed(alloc: Global, word: &[u8], place: u64, what: &[u8]) -> Result<Text, Memory> {
    let mut out = Text::of(alloc, word)?;
    add_number(alloc, &mut out, place)?;
    add_word(&mut out, what)?;
    Ok(out)
}

fn refusal(alloc: Global, reason: &ReplyReason) -> Result<Text, Memory> {
    match reason {
        ReplyReason::Form => Text::of(alloc, b"Form"),
        ReplyReason::Signature => Text::of(alloc, b"Signature"),
        ReplyReason::Chain { place, reason } => {
            placed(alloc, b"Chain", *place, chain_word(reason))
        }
        ReplyReason::Subject => Text::of(alloc, b"Subject"),
        ReplyReason::Metadata => Text::of(alloc, b"Metadata"),
        ReplyReason::End => Text::of(alloc, b"End"),
        ReplyReason::Mark { place, flaw } => match flaw {
            Flaw::Bad(reason) => placed(alloc, b"Mark", *place, mark_word(*reason)),
            Flaw::Late => placed(alloc, b"Mark", *place, b"Late"),
        },
        ReplyReason::Times => Text::of(alloc, b"Times"),
    }
}

// The entity, the end, and of each mark whether its signature was checked.
fn sound(alloc: Global, claimed: &Claimed, checked: &[bool]) -> Result<Text, Memory> {
    let mut out = Text::of(alloc, b"sound")?;
    add_word(&mut out, claimed.said.sub.text())?;
    add_number(alloc, &mut out, claimed.said.exp)?;
    for was in checked {
        add_word(&mut out, if *was { b"checked" } else { b"unchecked" })?;
    }
    Ok(out)
}

fn told(alloc: Global, verdict: &ReplyVerdict) -> Result<Text, Memory> {
    match verdict {
        ReplyVerdict::Sound { claimed, checked } => sound(alloc, claimed, checked.as_slice()),
        ReplyVerdict::Refused(reason) => refusal(alloc, reason),
    }
}

// What is found of a text by these keys.
fn found<R: OpensLedgers>(
    rt: &R,
    alloc: Global,
    text: &[u8],
    resolver: &JwkSet,
    anchor: &EntityId,
    keys: &JwkSet,
    moment: &str,
) -> Result<Text, Memory> {
    let t = moment.parse::<u64>().unwrap_or(0);
    let mut steps = Steps {
        ledger: Plain::new(rt),
    };
    let verdict = check_reply(alloc, text, resolver, anchor, keys, t, &mut steps)?;
    let told = told(alloc, &verdict);
    drop(verdict);
    told
}

/// `check TEXT RESOLVER ANCHOR KEYS MOMENT`: what is found of the kept text, by the names of the key sets.
pub(crate) fn check<R: OpensLedgers>(
    rt: &R,
    alloc: Global,
    given: &str,
    kept: &Kept,
) -> Result<Text, Memory> {
    let (text, given) = cut(given);
    let (resolver, given) = cut(given);
    let (anchor, given) = cut(given);
    let (keys, moment) = cut(given);
    let (Some(resolver), Some(keys)) = (
        keys_in(alloc, kept.text(resolver)),
        keys_in(alloc, kept.text(keys)),
    ) else {
        return Text::of(alloc, b"no keys");
    };
    match EntityId::of(alloc, anchor.as_bytes())? {
        Some(anchor) => found(
            rt,
            alloc,
            kept.text(text),
            &resolver,
            &anchor,
            &keys,
            moment,
        ),
        None => Text::of(alloc, b"no identifier"),
    }
}
