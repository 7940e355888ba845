// The resolver's node.

ghost use Rattle.std.specs.Prelude.{◌≡◌, IfOk, IfSome};
ghost use Rattle.statement_shelf.specs.Book.{opened_with};
ghost use Rattle.statement_shelf.specs.Passes.{IsPassOfAll, opened_book};
ghost use Rattle.turn_log.specs.Groups.{IsUnused, OwnsEach};
ghost use Rattle.authority_core.specs.Nodes.{Node as Authority};
ghost use Rattle.rehearsal.specs.Configurations.{IsConfigured, resolver_key, resolving_by};
ghost use Rattle.rehearsal.specs.Keys.{ring_of};
ghost use Rattle.rehearsal.specs.Requests.{IsPartOf, IsResolverNode};

use crate::configurations::{RESOLVER_KEY, resolver_configuration};
use crate::federation::registry_of;
use crate::keys::ring_of;
use authority_core::Registry;
use fed_base::Memory;
use fed_serve::{Node, ResolverPart};
use node_files::{Parts, parts_of};
use statement_shelf::{Commons, FedPass};
use std::alloc::Global;

/// The resolver's node, opened, and a pass of its shared objects.
#[derive(Drop)]
pub(crate) struct Opened {
    pub(crate) node: Node,
    pub(crate) pass: FedPass,
}

/// Opens the node of the resolver whose trust anchor has these keys. The pass has seen nothing.
pub(crate) fn open_resolver(alloc: Global, keys: &[u8]) -> Result<Opened, Memory>
    ensures node { IfOk result (λ r. (configured : Authority) × IsConfigured (resolving_by keys.now) (ring_of resolver_key) configured × IsResolverNode configured r.node) }
    ensures of { IfOk result (λ r. IfSome r.node.resolver (λ part. IsPassOfAll part.commons r.pass)) }
    ensures unused { IfOk result (λ r. IsUnused r.pass) }
    ensures whole { IfOk result (λ r. OwnsEach r.pass) }
{
    let config = resolver_configuration(alloc, keys)?;
    let ring = ring_of(alloc, RESOLVER_KEY)?;
    let registry = registry_of(alloc, config.as_slice(), ring)?;
    open_node(alloc, registry)
}

// Opens a node that resolves.
fn open_node(alloc: Global, registry: Registry) -> Result<Opened, Memory>
    ensures node { IfOk result (λ r. IsResolverNode registry r.node) }
    ensures of { IfOk result (λ r. IfSome r.node.resolver (λ part. IsPassOfAll part.commons r.pass)) }
    ensures unused { IfOk result (λ r. IsUnused r.pass) }
    ensures whole { IfOk result (λ r. OwnsEach r.pass) }
{
    match part_of(alloc, &registry) {
        Ok((part, pass)) => {
            let node = Node {
                registry,
                resolver: Some(part),
            };
            Ok(Opened { node, pass })
        }
        Err(memory) => {
            drop(registry);
            Err(memory)
        }
    }
}

// What the node resolves with, and a pass.
fn part_of(alloc: Global, registry: &Registry) -> Result<(ResolverPart, FedPass), Memory>
    ensures part { IfOk result (λ r. IsPartOf registry.now r.0) }
    ensures of { IfOk result (λ r. IsPassOfAll r.0.commons r.1) }
    ensures unused { IfOk result (λ r. IsUnused r.1) }
    ensures whole { IfOk result (λ r. OwnsEach r.1) }
{
    let Some(_) = registry.resolver_config() else {
        return Err(Memory);
    };
    let parts = parts_of(alloc, registry)?;
    open_parts(alloc, parts)
}

// Opens the shared objects of these parts.
fn open_parts(alloc: Global, parts: Parts) -> Result<(ResolverPart, FedPass), Memory>
    ensures signer { IfOk result (λ r. r.0.signer ≡ parts.signer) }
    ensures control { IfOk result (λ r. r.0.control ≡ parts.control) }
    ensures opened { IfOk result (λ r. opened_book r.0.commons ≡ opened_with parts.anchors) }
    ensures of { IfOk result (λ r. IsPassOfAll r.0.commons r.1) }
    ensures unused { IfOk result (λ r. IsUnused r.1) }
    ensures whole { IfOk result (λ r. OwnsEach r.1) }
{
    let Parts {
        signer,
        anchors,
        routes,
        control,
        workers: _,
    } = parts;
    drop(routes);
    match Commons::new(alloc, anchors) {
        Ok((commons, pass)) => {
            let part = ResolverPart {
                commons,
                signer,
                control,
            };
            Ok((part, pass))
        }
        Err(_) => {
            drop(signer);
            drop(control);
            Err(Memory)
        }
    }
}
