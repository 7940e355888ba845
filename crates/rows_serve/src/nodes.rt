// The node that is asked.

ghost use Rattle.fed_json.specs.Forms.{IsWellFormed};

use crate::words::cut;
use authority_core::{ConfigFault, Registry};
use fed_base::{Memory, Text};
use fed_json::{Json, TreeFault, read_tree};
use fed_serve::Node;
use key_ring::KeyRing;
use std::alloc::Global;
use std::mem::replace;

/// `node RING CONFIG`: what the node is called that is kept, or why there is none.
pub(crate) fn keep(alloc: Global, given: &str, node: &mut Option<Node>) -> Result<Text, Memory> {
    let (ring, config) = cut(given);
    match read_tree(alloc, config.as_bytes()) {
        Ok(tree) => {
            let told = keep_tree(alloc, ring, &tree, node);
            drop(tree);
            told
        }
        Err(TreeFault::Syntax) => Text::of(alloc, b"no JSON"),
        Err(TreeFault::Memory) => Err(Memory),
    }
}

fn keep_tree(
    alloc: Global,
    ring: &str,
    config: &Json,
    node: &mut Option<Node>,
) -> Result<Text, Memory>
    requires { IsWellFormed config.now }
{
    let Ok(ring) = KeyRing::open(alloc, ring.as_bytes()) else {
        return Text::of(alloc, b"no ring");
    };
    match Registry::read(alloc, config, ring) {
        Ok(registry) => keep_node(alloc, registry, node),
        Err(ConfigFault::Shape(member)) => Ok(member),
        Err(ConfigFault::Memory) => Err(Memory),
    }
}

fn keep_node(alloc: Global, registry: Registry, node: &mut Option<Node>) -> Result<Text, Memory> {
    match Text::of(alloc, registry.id().text()) {
        Ok(told) => {
            let kept = Node {
                registry,
                resolver: None,
            };
            drop(replace(node, Some(kept)));
            Ok(told)
        }
        Err(Memory) => {
            drop(registry);
            Err(Memory)
        }
    }
}
