// Rows on what a node answers.

ghost use Rattle.std.specs.Prelude.{IfOk};
ghost use Rattle.std.specs.Str.{IsUtf8};

use crate::nodes::filled;
use crate::signed::{add_status, add_text};
use crate::words::{add_number, add_word, cut, number};
use authority_core::{ListQuery, Media, Registry, Response};
use fed_base::{Duplicate, Memory, OpensLedgers, Plain, Seq, Steps, Text};
use std::alloc::Global;

/// What the node answers to a row.
pub(crate) fn ask<R: OpensLedgers>(
    rt: &R,
    alloc: Global,
    node: &Registry,
    kind: &str,
    given: &str,
    kept: &Text,
) -> Result<Text, Memory> {
    let (first, rest) = cut(given);
    let t = number(first);
    match kind {
        "configuration" => told(rt, alloc, node, node.configuration(alloc, t)?),
        "fetch" => fetch(rt, alloc, node, t, rest),
        "list" => list(rt, alloc, node, given),
        "historical" => told(rt, alloc, node, node.historical_keys(alloc, t)?),
        "status" => status(rt, alloc, node, t, &filled(alloc, rest, kept)?),
        _ => Text::of(alloc, b"no such row"),
    }
}

// `fetch MOMENT IDENTIFIER`.
fn fetch<R: OpensLedgers>(
    rt: &R,
    alloc: Global,
    node: &Registry,
    t: u64,
    sub: &str,
) -> Result<Text, Memory> {
    let sub = Text::of(alloc, sub.as_bytes())?;
    told(rt, alloc, node, node.fetch(alloc, t, &sub)?)
}

// `list TYPES MARKED MARK-TYPE INTERMEDIATE`: types with commas between them, `true` or `false`, a type or nothing, `true` or `false`.
fn list<R: OpensLedgers>(
    rt: &R,
    alloc: Global,
    node: &Registry,
    given: &str,
) -> Result<Text, Memory> {
    let query = query(alloc, given)?.copy(alloc)?;
    told(rt, alloc, node, node.list(alloc, &query)?)
}

fn query(alloc: Global, given: &str) -> Result<ListQuery, Memory> {
    let (types, given) = cut(given);
    let (marked, given) = cut(given);
    let (mark_type, intermediate) = cut(given);
    let types = parted(alloc, types)?;
    let mark_type = unless_empty(alloc, mark_type)?;
    Ok(ListQuery {
        types,
        trust_marked: marked == "true",
        mark_type,
        intermediate: intermediate == "true",
    })
}

// The texts between commas, without those that are empty.
fn parted(alloc: Global, texts: &str) -> Result<Seq<Text>, Memory> {
    let mut parts = Seq::new(alloc);
    for part in texts.split(',') {
        if !part.is_empty() {
            parts.push(Text::of(alloc, part.as_bytes())?)?;
        }
    }
    Ok(parts)
}

// The text, unless it is empty.
fn unless_empty(alloc: Global, text: &str) -> Result<Option<Text>, Memory> {
    if text.is_empty() {
        return Ok(None);
    }
    Ok(Some(Text::of(alloc, text.as_bytes())?))
}

// `status MOMENT TEXT`: what the node tells of the text, and how many signatures it tested for that.
fn status<R: OpensLedgers>(
    rt: &R,
    alloc: Global,
    node: &Registry,
    t: u64,
    text: &Text,
) -> Result<Text, Memory> {
    match std::str::from_utf8(text.as_slice()) {
        Ok(mark) => status_of(rt, alloc, node, t, &mark_of(alloc, mark)?),
        Err(_) => Text::of(alloc, b"no UTF-8"),
    }
}

fn mark_of(alloc: Global, text: &str) -> Result<Text, Memory>
    ensures { IfOk result IsUtf8 }
{
    Text::of(alloc, text.as_bytes())
}

fn status_of<R: OpensLedgers>(
    rt: &R,
    alloc: Global,
    node: &Registry,
    t: u64,
    mark: &Text,
) -> Result<Text, Memory>
    requires { IsUtf8 mark.now }
{
    let mut steps = Steps {
        ledger: Plain::new(rt),
    };
    let answer = node.status(alloc, t, mark, &mut steps)?;
    let mut out = begun(alloc, &answer)?;
    add_status(rt, alloc, &mut out, node, &answer.body, mark)?;
    add_number(alloc, &mut out, steps.ledger.steps())?;
    Ok(out)
}

// The status, the media type and the body.
fn told<R: OpensLedgers>(
    rt: &R,
    alloc: Global,
    node: &Registry,
    answer: Response,
) -> Result<Text, Memory> {
    let mut out = begun(alloc, &answer)?;
    match answer.media {
        Media::Json => add_word(&mut out, answer.body.as_slice())?,
        _ => add_text(rt, alloc, &mut out, node, &answer.body)?,
    }
    Ok(out)
}

// The status and the media type.
fn begun(alloc: Global, answer: &Response) -> Result<Text, Memory> {
    let mut out = Text::new(alloc);
    add_number(alloc, &mut out, answer.status as u64)?;
    add_word(&mut out, media(answer.media))?;
    Ok(out)
}

fn media(media: Media) -> &'static [u8] {
    match media {
        Media::Json => b"Json",
        Media::Statement => b"Statement",
        Media::Resolve => b"Resolve",
        Media::JwkSet => b"JwkSet",
        Media::Status => b"Status",
    }
}
