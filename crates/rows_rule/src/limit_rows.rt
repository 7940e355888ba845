// Rows about constraints, and about the limits and types of chains.

use crate::words::{add_number, add_word, cut, tree_told};
use chain_limits::{Constraints, LimitShape, LimitVerdict, Place, allowed_types, limits_met};
use fed_base::{Duplicate, Memory, Seq, Text};
use fed_json::{Json, TreeFault, read_tree};
use std::alloc::Global;

fn read(alloc: Global, text: &str) -> Result<Constraints, LimitShape> {
    match read_tree(alloc, text.as_bytes()) {
        Ok(tree) => {
            let limits = Constraints::read(alloc, &tree);
            drop(tree);
            limits
        }
        Err(TreeFault::Syntax) => Err(LimitShape::Shape),
        Err(TreeFault::Memory) => Err(LimitShape::Memory),
    }
}

fn fault_told(alloc: Global, fault: LimitShape) -> Result<Text, Memory> {
    match fault {
        LimitShape::Shape => Text::of(alloc, b"Shape"),
        LimitShape::Memory => Err(Memory),
    }
}

fn add_texts(out: &mut Text, name: &[u8], texts: &Seq<Text>) -> Result<(), Memory> {
    add_word(out, name)?;
    out.push(b' ')?;
    out.push(b'[')?;
    for (i, text) in texts.as_slice().iter().enumerate() {
        if i > 0 {
            out.push(b',')?;
        }
        out.append(text.as_slice())?;
    }
    out.push(b']')
}

fn add_if_there(out: &mut Text, name: &[u8], texts: &Option<Seq<Text>>) -> Result<(), Memory> {
    match texts {
        Some(texts) => add_texts(out, name, texts),
        None => Ok(()),
    }
}

fn add_constraints(alloc: Global, out: &mut Text, limits: &Constraints) -> Result<(), Memory> {
    if let Some(max_path) = limits.max_path {
        add_word(out, b"path")?;
        add_number(alloc, out, max_path)?;
    }
    add_if_there(out, b"permitted", &limits.permitted)?;
    add_texts(out, b"excluded", &limits.excluded)?;
    add_if_there(out, b"types", &limits.types)
}

fn copy_told(alloc: Global, limits: &Constraints) -> Result<Text, Memory> {
    let copy = limits.copy(alloc)?;
    let mut out = Text::new(alloc);
    let added = add_constraints(alloc, &mut out, &copy);
    drop(copy);
    added?;
    Ok(out)
}

/// `constraints TREE`: the parts that are there, or `Shape`.
pub(crate) fn constraints(alloc: Global, given: &str) -> Result<Text, Memory> {
    match read(alloc, given) {
        Ok(limits) => {
            let told = copy_told(alloc, &limits);
            drop(limits);
            told
        }
        Err(fault) => fault_told(alloc, fault),
    }
}

// The place of a statement with this host and, after a space, these constraints.
fn place(alloc: Global, given: &str) -> Result<Place, LimitShape> {
    let (host, limits) = given.split_once(' ').unwrap_or((given, ""));
    let host = Text::of(alloc, host.as_bytes())?;
    let limits = read(alloc, limits)?;
    Ok(Place { host, limits })
}

fn add_places(alloc: Global, places: &mut Seq<Place>, given: &str) -> Result<(), LimitShape> {
    for part in given.split('\t') {
        if !part.is_empty() {
            places.push(place(alloc, part)?)?;
        }
    }
    Ok(())
}

fn verdict_told(alloc: Global, verdict: LimitVerdict) -> Result<Text, Memory> {
    let (word, place): (&[u8], u64) = match verdict {
        LimitVerdict::Met => return Text::of(alloc, b"Met"),
        LimitVerdict::PathLength(place) => (b"PathLength", place),
        LimitVerdict::Name(place) => (b"Name", place),
    };
    let mut out = Text::of(alloc, word)?;
    add_number(alloc, &mut out, place)?;
    Ok(out)
}

fn met(alloc: Global, places: &Seq<Place>) -> Result<Text, Memory> {
    let copy = places.copy(alloc)?;
    let verdict = limits_met(&copy);
    drop(copy);
    verdict_told(alloc, verdict)
}

/// `limits PLACE ..`, each place a host, a space and constraints, the leaf's first: the first limit that isn't met.
pub(crate) fn limits(alloc: Global, given: &str) -> Result<Text, Memory> {
    let mut places = Seq::new(alloc);
    match add_places(alloc, &mut places, given) {
        Ok(()) => met(alloc, &places),
        Err(fault) => fault_told(alloc, fault),
    }
}

fn kept(alloc: Global, places: &Seq<Place>, metadata: &Json) -> Result<Text, Memory> {
    let tree = allowed_types(alloc, places, metadata)?;
    let told = tree_told(alloc, &tree);
    drop(tree);
    told
}

fn kept_at(alloc: Global, metadata: &Json, given: &str) -> Result<Text, Memory> {
    let mut places = Seq::new(alloc);
    match add_places(alloc, &mut places, given) {
        Ok(()) => kept(alloc, &places, metadata),
        Err(fault) => fault_told(alloc, fault),
    }
}

/// `types METADATA PLACE ..`: the metadata with the types alone that the places allow.
pub(crate) fn types(alloc: Global, given: &str) -> Result<Text, Memory> {
    let (metadata, given) = cut(given);
    match read_tree(alloc, metadata.as_bytes()) {
        Ok(metadata) => {
            let told = kept_at(alloc, &metadata, given);
            drop(metadata);
            told
        }
        Err(_) => Text::of(alloc, b"no tree"),
    }
}
