// Rows on configurations.

ghost use Rattle.fed_json.specs.Forms.{IsWellFormed};

use crate::words::{add_named, add_number, add_word};
use fed_base::{Duplicate, Memory, Text};
use fed_json::{Json, TreeFault, read_tree};
use node_config::{AnchorPart, ConfigFault, NodeConfig, ResolverConfig};
use std::alloc::Global;

/// What a configuration says, or the first member that isn't of its form.
pub(crate) fn config(alloc: Global, text: &str) -> Result<Text, Memory> {
    match read_tree(alloc, text.as_bytes()) {
        Ok(tree) => read(alloc, &tree),
        Err(TreeFault::Syntax) => Text::of(alloc, b"no JSON"),
        Err(TreeFault::Memory) => Err(Memory),
    }
}

fn read(alloc: Global, tree: &Json) -> Result<Text, Memory>
    requires { IsWellFormed tree.now }
{
    match NodeConfig::read(alloc, tree) {
        Ok(node) => {
            let told = summary(alloc, &node);
            drop(node);
            told
        }
        Err(fault) => shape(alloc, fault.copy(alloc)?),
    }
}

/// Which member isn't of its form.
pub(crate) fn shape(alloc: Global, fault: ConfigFault) -> Result<Text, Memory> {
    let ConfigFault::Shape(member) = fault else {
        return Err(Memory);
    };
    let mut told = Text::of(alloc, b"Shape")?;
    add_word(&mut told, member.as_slice())?;
    Ok(told)
}

// The identifier, the lifetime, how many subordinates and revoked marks there are, and the resolver.
fn summary(alloc: Global, node: &NodeConfig) -> Result<Text, Memory> {
    let mut told = Text::of(alloc, node.id.text())?;
    add_named(alloc, &mut told, b"lifetime", node.lifetime)?;
    let subordinates = node.subordinates.len() as u64;
    add_named(alloc, &mut told, b"subordinates", subordinates)?;
    add_named(alloc, &mut told, b"revoked", node.revoked.len() as u64)?;
    if let Some(resolver) = &node.resolver {
        add_resolver(alloc, &mut told, resolver)?;
    }
    Ok(told)
}

fn add_resolver(alloc: Global, told: &mut Text, resolver: &ResolverConfig) -> Result<(), Memory> {
    let resolver = resolver.copy(alloc)?;
    let added = resolves(alloc, told, &resolver);
    drop(resolver);
    added
}

fn add_address(alloc: Global, told: &mut Text, ip: [u8; 4], port: u16) -> Result<(), Memory> {
    for part in ip {
        add_number(alloc, told, part as u64)?;
    }
    add_number(alloc, told, port as u64)
}

// Of each anchor, how far searches up to it go.
fn add_bounds(alloc: Global, told: &mut Text, anchors: &[AnchorPart]) -> Result<(), Memory> {
    for anchor in anchors {
        add_number(alloc, told, anchor.depth)?;
        add_number(alloc, told, anchor.calls)?;
        add_number(alloc, told, anchor.paths)?;
    }
    Ok(())
}

fn resolves(alloc: Global, told: &mut Text, resolver: &ResolverConfig) -> Result<(), Memory> {
    add_named(alloc, told, b"anchors", resolver.anchors.len() as u64)?;
    add_bounds(alloc, told, resolver.anchors.as_slice())?;
    add_named(alloc, told, b"age", resolver.age)?;
    add_named(alloc, told, b"workers", resolver.workers)?;
    for route in resolver.routes.as_slice() {
        add_word(told, route.host.as_slice())?;
        add_address(alloc, told, route.to.ip, route.to.port)?;
    }
    Ok(())
}
