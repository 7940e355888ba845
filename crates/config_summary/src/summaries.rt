// What a node is.

ghost use Rattle.std.specs.Prelude.{◌≡◌, ◌<◌, ◌++◌, [], IfOk, OnOk};
ghost use Rattle.std.specs.Option.{option_map_or};
ghost use Rattle.fed_base.specs.Moments.{moment_limit};
ghost use Rattle.node_config.specs.Told.{told};
ghost use Rattle.config_summary.specs.Summaries.{ends, entity_lines, parts, resolver_lines, summary};

use crate::entities::{append_resolver, append_subordinates};
use crate::keys::{append_key_ends, append_keys};
use crate::lines::{append_line, append_number};
use crate::marks::{append_mark_ends, append_marks, entries_of};
use crate::served::append_served;
use entity_statement::MarkEntry;
use fed_base::{Memory, Text};
use key_ring::KeyTerm;
use node_config::NodeConfig;
use std::alloc::Global;

/// What the node with these keys is, in lines, each with its line end. What has ended at the moment, in seconds since 1970 and below 2^62,
/// or ends within 30 days of it, stands last.
#[tactic(auto, unfolding(crate::specs::Summaries::summary))]
pub fn summary(
    alloc: Global,
    moment: u64,
    node: &NodeConfig,
    keys: &[KeyTerm],
) -> Result<Text, Memory>
    requires { moment < moment_limit }
    ensures { IfOk result (λ text. text ≡ summary moment (told node.now) keys.now) }
{
    let marks = entries_of(alloc, &node.claims.marks)?;
    let mut text = Text::new(alloc);
    append_entity(alloc, &mut text, node)?;
    append_keys(alloc, &mut text, keys)?;
    append_parts(alloc, &mut text, node, marks.as_slice())?;
    append_ends(alloc, &mut text, moment, keys, marks.as_slice())?;
    Ok(text)
}

fn append_entity(alloc: Global, out: &mut Text, node: &NodeConfig) -> Result<(), Memory>
    ensures { OnOk result (out.new ≡ out.old ++ entity_lines (told node.now)) }
{
    append_line(out, b"entity ", node.id.text())?;
    out.append(b"lifetime ")?;
    append_number(alloc, out, node.lifetime)?;
    out.push(b'\n')
}

// Its marks, the entities that it knows, and what it serves.
fn append_parts(
    alloc: Global,
    out: &mut Text,
    node: &NodeConfig,
    marks: &[MarkEntry],
) -> Result<(), Memory>
    ensures { OnOk result (out.new ≡ out.old ++ parts (told node.now) marks.now) }
{
    append_marks(alloc, out, marks)?;
    append_subordinates(out, node.subordinates.as_slice())?;
    append_resolver_lines(alloc, out, node)?;
    append_served(alloc, out, node)
}

fn append_resolver_lines(alloc: Global, out: &mut Text, node: &NodeConfig) -> Result<(), Memory>
    ensures { OnOk result (out.new ≡ out.old ++ option_map_or resolver_lines (told node.now).resolver []) }
{
    match &node.resolver {
        Some(resolver) => append_resolver(alloc, out, resolver),
        None => Ok(()),
    }
}

// What has ended, or ends soon.
fn append_ends(
    alloc: Global,
    out: &mut Text,
    moment: u64,
    keys: &[KeyTerm],
    marks: &[MarkEntry],
) -> Result<(), Memory>
    requires { moment < moment_limit }
    ensures { OnOk result (out.new ≡ out.old ++ ends moment keys.now marks.now) }
{
    append_key_ends(alloc, out, moment, keys)?;
    append_mark_ends(alloc, out, moment, marks)
}
