// What is posted, and what is found.

use crate::texts::Texts;
use client_register::Found;
use fed_base::{Memory, Seq, Text};
use std::alloc::Global;

fn add_texts(
    alloc: Global,
    list: &mut Seq<Text>,
    texts: &Texts,
    names: &str,
) -> Result<(), Memory> {
    for name in names.split(' ') {
        list.push(Text::of(alloc, texts.named(name))?)?;
    }
    Ok(())
}

// The texts of these names, with a space between two; none where no name stands there.
fn texts_of(alloc: Global, texts: &Texts, names: &str) -> Result<Seq<Text>, Memory> {
    let mut list = Seq::new(alloc);
    if !names.is_empty() {
        add_texts(alloc, &mut list, texts, names)?;
    }
    Ok(list)
}

fn add_items(out: &mut Text, list: &[Text]) -> Result<(), Memory> {
    for (place, text) in list.iter().enumerate() {
        if place > 0 {
            out.push(b',')?;
        }
        out.push(b'"')?;
        out.append(text.as_slice())?;
        out.push(b'"')?;
    }
    Ok(())
}

// The JSON list of these texts.
fn list_of(alloc: Global, list: &Seq<Text>) -> Result<Text, Memory> {
    let mut out = Text::of(alloc, b"[")?;
    add_items(&mut out, list.as_slice())?;
    out.push(b']')?;
    Ok(out)
}

/// `chain NAME ..`: the JSON list of these texts. `text NAME`: that text. Anything else: its bytes.
pub(crate) fn posted(alloc: Global, texts: &Texts, part: &str) -> Result<Text, Memory> {
    match part.split_once(' ') {
        Some(("chain", names)) => list_of(alloc, &texts_of(alloc, texts, names)?),
        Some(("text", name)) => Text::of(alloc, texts.named(name)),
        _ => Text::of(alloc, part.as_bytes()),
    }
}

fn found(alloc: Global, texts: &Texts, word: &str) -> Result<Found, Memory> {
    match word.split_once(' ') {
        Some(("chain", names)) => Ok(Found::Chain(texts_of(alloc, texts, names)?)),
        _ => match word {
            "none" => Ok(Found::NoChain),
            "spent" => Ok(Found::Spent),
            _ => Ok(Found::Fault),
        },
    }
}

fn add_answers(
    alloc: Global,
    answers: &mut Seq<Found>,
    texts: &Texts,
    part: &str,
) -> Result<(), Memory> {
    for word in part.split(',') {
        answers.push(found(alloc, texts, word)?)?;
    }
    Ok(())
}

/// The answers of a finder, with a comma between two, none where the part is `-`: `chain NAME ..`, `none`, `spent` and `fault`.
pub(crate) fn answers(alloc: Global, texts: &Texts, part: &str) -> Result<Seq<Found>, Memory> {
    let mut answers = Seq::new(alloc);
    if part != "-" {
        add_answers(alloc, &mut answers, texts, part)?;
    }
    Ok(answers)
}
