// What a node serves where.

ghost use Rattle.std.specs.Prelude.{◌≡◌, ◌++◌, codes, OnOk};
ghost use Rattle.entity_id.specs.Urls.{well_known_of};
ghost use Rattle.node_config.specs.Told.{told};
ghost use Rattle.config_summary.specs.Summaries.{line, resolving_lines, served, served_lines, superior_lines};

use crate::lines::append_line;
use entity_id::{EntityId, without_slash};
use fed_base::{Memory, Text};
use node_config::NodeConfig;
use std::alloc::Global;

/// Appends a line for each URL that the node answers at: that of its configuration, and those of its endpoints.
pub(crate) fn append_served(alloc: Global, out: &mut Text, node: &NodeConfig) -> Result<(), Memory>
    ensures { OnOk result (out.new ≡ out.old ++ served_lines (told node.now)) }
{
    append_configuration(alloc, out, &node.id)?;
    append_superior(out, node)?;
    append_resolving(out, node)?;
    append_endpoint(out, &node.id, b"/historical-keys")?;
    append_endpoint(out, &node.id, b"/trust-mark-status")
}

fn append_configuration(alloc: Global, out: &mut Text, id: &EntityId) -> Result<(), Memory>
    ensures { OnOk result (out.new ≡ out.old ++ line (codes "serves ") (well_known_of id.now)) }
{
    let configuration = id.well_known(alloc)?;
    append_line(out, b"serves ", configuration.as_slice())
}

// The endpoints of a superior.
fn append_superior(out: &mut Text, node: &NodeConfig) -> Result<(), Memory>
    ensures { OnOk result (out.new ≡ out.old ++ superior_lines (told node.now)) }
{
    match node.subordinates.as_slice() {
        [] => Ok(()),
        _ => {
            append_endpoint(out, &node.id, b"/fetch")?;
            append_endpoint(out, &node.id, b"/list")
        }
    }
}

// The endpoint of a resolver.
fn append_resolving(out: &mut Text, node: &NodeConfig) -> Result<(), Memory>
    ensures { OnOk result (out.new ≡ out.old ++ resolving_lines (told node.now)) }
{
    match node.resolver {
        Some(_) => append_endpoint(out, &node.id, b"/resolve"),
        None => Ok(()),
    }
}

fn append_endpoint(out: &mut Text, id: &EntityId, path: &[u8]) -> Result<(), Memory>
    ensures { OnOk result (out.new ≡ out.old ++ served id.now path.now) }
{
    out.append(b"serves ")?;
    append_line(out, without_slash(id.text()), path)
}
