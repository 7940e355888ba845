// What rows keep for those behind them: a text, and the node that they ask.

ghost use Rattle.fed_json.specs.Forms.{IsWellFormed};

use crate::configs::shape;
use crate::words::{add_named, cut, number};
use authority_core::Registry;
use fed_base::{Memory, Text};
use fed_json::{Json, TreeFault, read_tree};
use key_ring::KeyRing;
use std::alloc::Global;
use std::mem::replace;

/// `text TEXT`: keeps the text.
pub(crate) fn keep_text(alloc: Global, given: &str, kept: &mut Text) -> Result<Text, Memory> {
    *kept = Text::of(alloc, given.as_bytes())?;
    Text::of(alloc, b"kept")
}

/// `letters NUMBER`: keeps so many letters `a`.
pub(crate) fn keep_letters(alloc: Global, given: &str, kept: &mut Text) -> Result<Text, Memory> {
    let mut letters = Text::new(alloc);
    for _ in 0..number(given) {
        letters.push(b'a')?;
    }
    *kept = letters;
    Text::of(alloc, b"kept")
}

/// What is given, in which a tilde stands for the kept text.
pub(crate) fn filled(alloc: Global, given: &str, kept: &Text) -> Result<Text, Memory> {
    let Some((front, back)) = given.split_once('~') else {
        return Text::of(alloc, given.as_bytes());
    };
    let mut text = Text::of(alloc, front.as_bytes())?;
    text.append(kept.as_slice())?;
    text.append(back.as_bytes())?;
    Ok(text)
}

/// `node RING CONFIG`: what the node is called that the rows behind it ask, or why there is none.
pub(crate) fn keep_node(
    alloc: Global,
    given: &str,
    kept: &Text,
    node: &mut Option<Registry>,
) -> Result<Text, Memory> {
    let (ring, config) = cut(given);
    let config = filled(alloc, config, kept)?;
    match read_tree(alloc, config.as_slice()) {
        Ok(tree) => keep_tree(alloc, ring, &tree, node),
        Err(TreeFault::Syntax) => Text::of(alloc, b"no JSON"),
        Err(TreeFault::Memory) => Err(Memory),
    }
}

fn keep_tree(
    alloc: Global,
    ring: &str,
    config: &Json,
    node: &mut Option<Registry>,
) -> Result<Text, Memory>
    requires { IsWellFormed config.now }
{
    let Ok(ring) = KeyRing::open(alloc, ring.as_bytes()) else {
        return Text::of(alloc, b"no ring");
    };
    match Registry::read(alloc, config, ring) {
        Ok(registry) => keep_registry(alloc, registry, node),
        Err(fault) => shape(alloc, fault),
    }
}

fn keep_registry(
    alloc: Global,
    registry: Registry,
    node: &mut Option<Registry>,
) -> Result<Text, Memory> {
    match summary(alloc, &registry) {
        Ok(told) => {
            drop(replace(node, Some(registry)));
            Ok(told)
        }
        Err(Memory) => {
            drop(registry);
            Err(Memory)
        }
    }
}

// The identifier, the lifetime, and how many anchors it resolves by, where it does.
fn summary(alloc: Global, node: &Registry) -> Result<Text, Memory> {
    let mut told = Text::of(alloc, node.id().text())?;
    add_named(alloc, &mut told, b"lifetime", node.lifetime())?;
    if let Some(resolver) = node.resolver_config() {
        add_named(alloc, &mut told, b"anchors", resolver.anchors.len() as u64)?;
    }
    Ok(told)
}
