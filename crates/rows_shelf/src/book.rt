// Calls on the book of trust anchors' keys.
use crate::spelling::{at, number, push_number};
use entity_id::{EntityId, IdFault};
use fed_base::{Duplicate, Memory, Seq, Text};
use fed_json::read_tree;
use jwk_set::{Jwk, JwkSet, SetFault};
use statement_shelf::{AnchorBook, AnchorKeys, BookCall, BookReply};
use std::alloc::Global;
use turn_log::Sequential;

// The identifier of an anchor of that name.
fn anchor(alloc: Global, name: &str) -> Result<EntityId, IdFault> {
    let mut text = Text::of(alloc, b"https://")?;
    text.append(name.as_bytes())?;
    text.append(b".example")?;
    EntityId::read(alloc, text.as_slice())
}

// A set of one key of that name.
fn keys(alloc: Global, name: &str) -> Result<JwkSet, SetFault> {
    let mut text = Text::of(alloc, br#"{"keys":[{"alg":"SLH-DSA-SHA2-128s","kid":""#)?;
    text.append(name.as_bytes())?;
    text.append(br#"","kty":"AKP","pub":"AAAAAAAAAAAAAAAAAAAAAAAAAAAAAAAAAAAAAAAAAAA"}]}"#)?;
    match read_tree(alloc, text.as_slice()) {
        Ok(tree) => JwkSet::read(alloc, &tree),
        Err(_) => Err(SetFault::NotSet),
    }
}

// What a call asks.
fn read(alloc: Global, call: &str) -> Result<Option<BookCall>, Memory> {
    if at(call, 0) == "epoch" {
        return Ok(Some(BookCall::Epoch));
    }
    let Ok(anchor) = anchor(alloc, at(call, 1)) else {
        return Ok(None);
    };
    if at(call, 0) == "read" {
        return Ok(Some(BookCall::Read { anchor }));
    }
    let Ok(keys) = keys(alloc, at(call, 3)) else {
        return Ok(None);
    };
    Ok(Some(BookCall::Rotate {
        anchor,
        from: number(at(call, 2)),
        keys,
    }))
}

// Appends the names of the keys.
fn push_names(out: &mut Text, keys: &JwkSet) -> Result<(), Memory> {
    for key in keys.keys.as_slice() {
        if let Jwk::Own { kid, .. } = key {
            out.append(b" ")?;
            out.append(kid.as_slice())?;
        }
    }
    Ok(())
}

// Appends a word and a number in brackets.
fn push_count(alloc: Global, out: &mut Text, word: &[u8], count: u64) -> Result<(), Memory> {
    out.append(word)?;
    out.append(b"(")?;
    push_number(alloc, out, count)?;
    out.append(b")")
}

/// Appends a reply.
pub fn push_reply(alloc: Global, out: &mut Text, reply: &BookReply) -> Result<(), Memory> {
    match reply {
        BookReply::Keys { epoch, keys } => {
            push_count(alloc, out, b"Keys", *epoch)?;
            push_names(out, keys)
        },
        BookReply::At(epoch) => push_count(alloc, out, b"At", *epoch),
        BookReply::Rotated(epoch) => push_count(alloc, out, b"Rotated", *epoch),
        BookReply::Behind(epoch) => push_count(alloc, out, b"Behind", *epoch),
        BookReply::NoAnchor => out.append(b"NoAnchor"),
        BookReply::Memory => out.append(b"Memory"),
    }
}

/// The identifier of an anchor of that name. Another fault than want of memory doesn't come.
pub fn anchor_named(alloc: Global, name: &str) -> Result<EntityId, Memory> {
    anchor(alloc, name).map_err(|_| Memory)
}

/// A set of one key of that name. Another fault than want of memory doesn't come.
pub fn set_named(alloc: Global, name: &str) -> Result<JwkSet, Memory> {
    keys(alloc, name).map_err(|_| Memory)
}

fn add_anchor(alloc: Global, name: &str, anchors: &mut Seq<AnchorKeys>) -> Result<(), Memory> {
    let anchor = anchor_named(alloc, name)?;
    let keys = set_named(alloc, name)?;
    anchors.push(AnchorKeys { anchor, keys })
}

/// The anchors `ta` and `tb`, each with a key that is named for it.
pub fn opened_anchors(alloc: Global) -> Result<Seq<AnchorKeys>, Memory> {
    let mut anchors = Seq::new(alloc);
    add_anchor(alloc, "ta", &mut anchors)?;
    add_anchor(alloc, "tb", &mut anchors)?;
    anchors.copy(alloc)
}

// Adds what the book replies to a call.
fn add_reply(
    alloc: Global,
    book: &mut AnchorBook,
    call: &str,
    out: &mut Text,
) -> Result<(), Memory> {
    match read(alloc, call)? {
        Some(call) => {
            let added = make(alloc, book, &call, out);
            drop(call);
            added
        },
        None => out.append(b"no call"),
    }
}

// Makes a copy of the call, and adds a copy of its reply.
fn make(
    alloc: Global,
    book: &mut AnchorBook,
    call: &BookCall,
    out: &mut Text,
) -> Result<(), Memory> {
    let reply = book.act(alloc, call.copy(alloc)?);
    let added = push_copy(alloc, out, &reply);
    drop(reply);
    added
}

fn push_copy(alloc: Global, out: &mut Text, reply: &BookReply) -> Result<(), Memory> {
    let copy = reply.copy(alloc)?;
    let added = push_reply(alloc, out, &copy);
    drop(copy);
    added
}

fn add_replies(
    alloc: Global,
    book: &mut AnchorBook,
    calls: &str,
    out: &mut Text,
) -> Result<(), Memory> {
    for call in calls.split(' ') {
        if !out.is_empty() {
            out.append(b", ")?;
        }
        add_reply(alloc, book, call, out)?;
    }
    Ok(())
}

/// The replies to these calls, made on a book that was just opened.
pub fn replies(alloc: Global, calls: &str) -> Result<Text, Memory> {
    let mut out = Text::new(alloc);
    let mut book = AnchorBook::open(opened_anchors(alloc)?);
    let added = add_replies(alloc, &mut book, calls, &mut out);
    drop(book);
    added?;
    Ok(out)
}
