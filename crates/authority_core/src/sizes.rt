// Whether what a node states is short enough.

ghost use Rattle.std.specs.Prelude.{◌≡◌, IfOk};
ghost use Rattle.fed_json.specs.Forms.{IsWhole};
ghost use Rattle.node_config.specs.Answers.{Gives};
ghost use Rattle.node_config.specs.Stated.{IsSubordinate};
ghost use Rattle.node_config.specs.Told.{told, told_subordinate};
ghost use Rattle.authority_core.specs.Configurations.{sizes_of};
ghost use Rattle.authority_core.specs.Issued.{is_short, states_all_shortly, states_itself_shortly, states_shortly};
ghost use Rattle.authority_core.specs.Nodes.{IsStatable, node_of};
ghost use Rattle.authority_core.specs.Stages.{IsFaultOf};
ghost use Rattle.key_ring.specs.Sets.{IsNamedIn, live_set, signer_keys};

use crate::claims::{configuration_claims, statement_claims};
use crate::lengths::after_statement;
use fed_base::{MOMENT_LIMIT, Memory, Text};
use fed_json::{Json, write_tree};
use key_ring::KeyRing;
use node_config::{ConfigFault, NodeConfig, SubordinateConfig};
use std::alloc::Global;

// How many bytes claims have at most.
const MOST_BYTES: u64 = 179_000;

/// Nothing where what the node states is short enough, and else `metadata` or `subordinates`.
#[tactic(auto, unfolding(crate::specs::Configurations::sizes_of))]
pub(crate) fn check_sizes(
    alloc: Global,
    node: &NodeConfig,
    ring: &KeyRing,
) -> Result<(), ConfigFault>
    requires { IsStatable node.now }
    ensures sizes { Gives result (sizes_of (node_of node.now ring.now)) }
    ensures signer { IfOk result (λ _. IsNamedIn (signer_keys ring.now) (live_set ring.now)) }
{
    if !states_itself_shortly(alloc, node, ring)? {
        return Err(too_long(alloc, b"metadata"));
    }
    if !states_all_shortly(alloc, node)? {
        return Err(too_long(alloc, b"subordinates"));
    }
    Ok(())
}

// The fault of a member that makes claims too long.
fn too_long(alloc: Global, member: &[u8]) -> ConfigFault
    ensures { IsFaultOf member.now result }
{
    match Text::of(alloc, member) {
        Ok(name) => ConfigFault::Shape(name),
        Err(Memory) => ConfigFault::Memory,
    }
}

// Whether the node's own configuration is short enough.
fn states_itself_shortly(alloc: Global, node: &NodeConfig, ring: &KeyRing) -> Result<bool, Memory>
    requires { IsStatable node.now }
    ensures short { IfOk result (λ short. short ≡ states_itself_shortly (node_of node.now ring.now)) }
    ensures signer { IfOk result (λ _. IsNamedIn (signer_keys ring.now) (live_set ring.now)) }
{
    let claims = configuration_claims(alloc, node, ring, MOMENT_LIMIT - 1)?;
    is_short(alloc, &claims)
}

// Whether each statement about a subordinate is.
fn states_all_shortly(alloc: Global, node: &NodeConfig) -> Result<bool, Memory>
    requires { IsStatable node.now }
    ensures { IfOk result (λ short. short ≡ states_all_shortly (told node.now)) }
{
    for s in node.subordinates.as_slice() {
        if !states_shortly(alloc, node, s)? {
            return Ok(false);
        }
    }
    Ok(true)
}

// Whether the statement about that subordinate is. It is written only where it may be longer.
fn states_shortly(alloc: Global, node: &NodeConfig, s: &SubordinateConfig) -> Result<bool, Memory>
    requires { IsSubordinate s.now }
    ensures { IfOk result (λ short. short ≡ states_shortly (told node.now) (told_subordinate s.now)) }
{
    if after_statement(MOST_BYTES, node, s).is_some() {
        return Ok(true);
    }
    let claims = statement_claims(alloc, node, s, MOMENT_LIMIT - 1)?;
    is_short(alloc, &claims)
}

fn is_short(alloc: Global, claims: &Json) -> Result<bool, Memory>
    requires { IsWhole claims.now }
    ensures { IfOk result (λ short. short ≡ is_short claims.now) }
{
    let text = write_tree(alloc, claims)?;
    Ok(text.len() as u64 <= MOST_BYTES)
}
