// The node that registers, and what was posted.

ghost use Rattle.std.specs.Prelude.{◌≡◌, IfErr, IfOk, find, option_map};
ghost use Rattle.std.specs.Option.{option_copied};
ghost use Rattle.node_files.specs.Moments.{node_seen};
ghost use Rattle.node_files.specs.NodeFiles.{Counts};
ghost use Rattle.node_files.specs.ResolvingParts.{booked_keys};
ghost use Rattle.resolve_call.specs.Ports.{Around as CallAround};
ghost use Rattle.register_once.specs.Opened.{AreOf, IsNone, IsOpened, is_of, wanted_of};
ghost use Rattle.register_once.specs.Registering.{CountsSource, CountsStore, IsStoppedBy, around_seen};

use crate::notes::explain_no_anchor;
use crate::order::RegisterOrder;
use crate::stop::RegisterStop;
use cli_commands::read_text;
use entity_id::EntityId;
use fed_base::{Duplicate, Memory, Text};
use fed_ports::{Source, Store};
use file_notes::explain_long_input;
use jwk_set::JwkSet;
use node_files::{NodeFault, Parts, open_resolver, parts_of};
use plain_notes::Notes;
use statement_shelf::AnchorKeys;
use std::alloc::Global;

/// What a node registers with.
#[derive(Drop)]
pub(crate) struct NodeParts {
    /// What it resolves with.
    pub(crate) parts: Parts,
    /// For how many seconds what it issues holds.
    pub(crate) lifetime: u64,
}

/// The node that registers, and what was posted.
#[derive(Drop)]
pub(crate) struct Opened {
    /// What the node resolves with.
    pub(crate) parts: Parts,
    /// For how many seconds what it issues holds.
    pub(crate) lifetime: u64,
    /// The trust anchor's keys.
    pub(crate) keys: JwkSet,
    /// What was posted, without the line end that may stand behind it.
    pub(crate) posted: Text,
}

/// Opens the node of the configuration file, reads what was posted, and looks the trust anchor up, in this order.
pub(crate) fn open_registration<S: Source, D: Store>(
    alloc: Global,
    order: RegisterOrder<'_>,
    input: &mut S,
    store: &mut D,
    notes: &mut Notes,
) -> Result<Opened, RegisterStop>
    ensures opened { (call : CallAround) → IfOk result (IsOpened (wanted_of order.entry)
        (node_seen D.Store store.old (around_seen S.Source input.old call)) (node_seen D.Store store.new (around_seen S.Source input.new call))) }
    ensures stopped { (call : CallAround) → IfErr result (IsStoppedBy (wanted_of order.entry)
        (node_seen D.Store store.old (around_seen S.Source input.old call)) (node_seen D.Store store.new (around_seen S.Source input.new call))) }
    ensures files { D.files store.new ≡ D.files store.old }
    ensures source { CountsSource (S.read_faults input.old) (S.read_faults input.new) result }
    ensures store { CountsStore (D.store_faults store.old) (D.store_faults store.new) result }
{
    let NodeParts { parts, lifetime } = node_parts(alloc, order.config, store, notes)?;
    let Some(posted) = read_text(alloc, input, notes)? else {
        explain_long_input(alloc, notes);
        return Err(RegisterStop::Input);
    };
    let Some(keys) = listed_keys(alloc, parts.anchors.as_slice(), order.anchor)? else {
        explain_no_anchor(alloc, notes);
        return Err(RegisterStop::NoAnchor);
    };
    Ok(Opened {
        parts,
        lifetime,
        keys,
        posted,
    })
}

// What the node of the configuration file of that name registers with.
fn node_parts<D: Store>(
    alloc: Global,
    config: &Text,
    store: &mut D,
    notes: &mut Notes,
) -> Result<NodeParts, NodeFault>
    ensures node { IfOk result (AreOf (D.files store.old) config.now) }
    ensures none { IfErr result (IsNone (D.files store.old) config.now) }
    ensures files { D.files store.new ≡ D.files store.old }
    ensures counts { Counts (D.store_faults store.old) (D.store_faults store.new) result }
{
    let registry = open_resolver(alloc, config, store, notes)?;
    let parts = parts_of(alloc, &registry);
    let lifetime = registry.lifetime();
    drop(registry);
    let parts = parts?;
    Ok(NodeParts { parts, lifetime })
}

// A copy of the keys that are listed for the trust anchor.
fn listed_keys(
    alloc: Global,
    anchors: &[AnchorKeys],
    anchor: &EntityId,
) -> Result<Option<JwkSet>, Memory>
    ensures { IfOk result (λ keys. option_map (λ set. set.keys) keys ≡ booked_keys anchor.now anchors.now) }
{
    match listed(anchors, anchor) {
        Some(listed) => Ok(Some(listed.keys.copy(alloc)?)),
        None => Ok(None),
    }
}

fn listed<'a>(anchors: &'a [AnchorKeys], anchor: &EntityId) -> Option<&'a AnchorKeys>
    ensures { option_copied result ≡ find (is_of anchor.now) anchors.now }
{
    anchors.iter().find(|listed| is_of(listed, anchor))
}

fn is_of(listed: &AnchorKeys, anchor: &EntityId) -> bool
    ensures { result ≡ is_of anchor.now listed.now }
{
    listed.anchor == *anchor
}
