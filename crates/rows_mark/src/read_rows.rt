// Rows that read marks, delegations and answers on a mark's status.

use crate::words::{add_number, add_word, cut};
use fed_base::{Duplicate, Memory, Text};
use fed_json::{Json, is_whole, write_tree};
use jws_form::{Compact, split};
use std::alloc::Global;
use trust_mark::{Mark, MarkFault, StatusAnswer, read_delegation};

fn add_payload(alloc: Global, text: &mut Text, payload: &str) -> Result<(), Memory> {
    text.push(b'.')?;
    text.append(base64url::encode(alloc, payload.as_bytes())?.as_slice())?;
    text.push(b'.')
}

/// The text with this header and this payload, and an empty signature.
pub(crate) fn text_of(alloc: Global, given: &str) -> Result<Text, Memory> {
    let (header, payload) = cut(given);
    let mut text = base64url::encode(alloc, header.as_bytes())?;
    add_payload(alloc, &mut text, payload)?;
    Ok(text)
}

fn parts(alloc: Global, given: &str) -> Result<Option<Compact>, Memory> {
    match split(alloc, text_of(alloc, given)?.as_slice()) {
        Ok(compact) => Ok(Some(compact)),
        Err(_) => Ok(None),
    }
}

fn fault_told(alloc: Global, fault: MarkFault) -> Result<Text, Memory> {
    let (word, claim): (&[u8], Text) = match fault.copy(alloc)? {
        MarkFault::Typ => return Text::of(alloc, b"Typ"),
        MarkFault::Tree => return Text::of(alloc, b"Tree"),
        MarkFault::Missing(claim) => (b"Missing", claim),
        MarkFault::Shape(claim) => (b"Shape", claim),
        MarkFault::Memory => return Err(Memory),
    };
    let mut out = Text::of(alloc, word)?;
    add_word(&mut out, claim.as_slice())?;
    Ok(out)
}

fn add_mark(alloc: Global, out: &mut Text, mark: &Mark) -> Result<(), Memory> {
    add_word(out, mark.iss.text())?;
    add_word(out, mark.sub.text())?;
    add_word(out, mark.mark_type.as_slice())?;
    add_number(alloc, out, mark.iat)?;
    match mark.exp {
        Some(exp) => add_number(alloc, out, exp)?,
        None => add_word(out, b"-")?,
    }
    match &mark.delegation {
        Some(text) => add_word(out, text.as_slice()),
        None => add_word(out, b"-"),
    }
}

fn mark_told(alloc: Global, mark: &Mark) -> Result<Text, Memory> {
    let mut out = Text::new(alloc);
    add_mark(alloc, &mut out, mark)?;
    Ok(out)
}

fn copy_told(alloc: Global, mark: &Mark) -> Result<Text, Memory> {
    let copy = mark.copy(alloc)?;
    let told = mark_told(alloc, &copy);
    drop(copy);
    told
}

fn read_told(alloc: Global, read: Result<Mark, MarkFault>) -> Result<Text, Memory> {
    match read {
        Ok(mark) => {
            let told = copy_told(alloc, &mark);
            drop(mark);
            told
        },
        Err(fault) => fault_told(alloc, fault),
    }
}

/// `mark HEADER PAYLOAD`: issuer, subject, type, `iat`, `exp` and delegation, or the first fault.
pub(crate) fn mark(alloc: Global, given: &str) -> Result<Text, Memory> {
    match parts(alloc, given)? {
        Some(compact) => {
            let read = Mark::read(alloc, &compact);
            drop(compact);
            read_told(alloc, read)
        },
        None => Text::of(alloc, b"no text"),
    }
}

/// `delegation HEADER PAYLOAD`: the same of a delegation.
pub(crate) fn delegation(alloc: Global, given: &str) -> Result<Text, Memory> {
    match parts(alloc, given)? {
        Some(compact) => {
            let read = read_delegation(alloc, &compact);
            drop(compact);
            read_told(alloc, read)
        },
        None => Text::of(alloc, b"no text"),
    }
}

fn add_tree(alloc: Global, out: &mut Text, tree: &Json) -> Result<(), Memory> {
    if is_whole(tree) {
        let text = write_tree(alloc, tree)?;
        add_word(out, text.as_slice())?;
    }
    Ok(())
}

fn add_claims(alloc: Global, out: &mut Text, answer: &StatusAnswer) -> Result<(), Memory> {
    let tree = answer.write(alloc)?;
    let added = add_tree(alloc, out, &tree);
    drop(tree);
    added
}

fn answer_told(alloc: Global, answer: &StatusAnswer) -> Result<Text, Memory> {
    let mut out = Text::of(alloc, answer.status.word())?;
    add_claims(alloc, &mut out, answer)?;
    Ok(out)
}

fn answer_copy_told(alloc: Global, answer: &StatusAnswer) -> Result<Text, Memory> {
    let copy = answer.copy(alloc)?;
    let told = answer_told(alloc, &copy);
    drop(copy);
    told
}

fn status_told(alloc: Global, read: Result<StatusAnswer, MarkFault>) -> Result<Text, Memory> {
    match read {
        Ok(answer) => {
            let told = answer_copy_told(alloc, &answer);
            drop(answer);
            told
        },
        Err(fault) => fault_told(alloc, fault),
    }
}

/// `status HEADER PAYLOAD`: what has become of the mark, and the claims as they are written again, or the first fault.
pub(crate) fn status(alloc: Global, given: &str) -> Result<Text, Memory> {
    match parts(alloc, given)? {
        Some(compact) => {
            let read = StatusAnswer::read(alloc, &compact);
            drop(compact);
            status_told(alloc, read)
        },
        None => Text::of(alloc, b"no text"),
    }
}
