// What a resolver serves with.

ghost use Rattle.std.specs.Prelude.{◌≡◌, IfOk, IfSome, Some};
ghost use Rattle.node_files.specs.NodeFiles.{IsResolver};
ghost use Rattle.node_files.specs.ResolvingParts.{ArePartsOf};
ghost use Rattle.statement_shelf.specs.Passes.{IsPassOfAll};
ghost use Rattle.turn_log.specs.Groups.{IsUnused};
ghost use Rattle.resolver_service.specs.Steps.{IsOpenedFrom};

use authority_core::Registry;
use fed_base::{Memory, Seq};
use fed_resolver::Signer;
use fed_serve::{Node, ResolverPart};
use http_plain::Route;
use jwk_set::JwkSet;
use node_files::{Parts, parts_of};
use statement_shelf::{Commons, FedPass};
use std::alloc::Global;

/// What a resolver serves with.
#[derive(Drop)]
pub(crate) struct Opened {
    /// The node, which has a part for resolving.
    pub(crate) node: Node,
    /// Where it reaches hosts.
    pub(crate) routes: Seq<Route>,
    /// How many connections are served at once.
    pub(crate) workers: u64,
}

// The node with its part for resolving, which has an empty cache and the configured book, and a pass of both.
fn open_with(alloc: Global, registry: Registry, parts: Parts) -> Result<(Opened, FedPass), Memory>
    requires { ArePartsOf registry parts }
    ensures opened { IfOk result (λ r. IsOpenedFrom registry r.0) }
    ensures of { IfOk result (λ r. IfSome r.0.node.resolver (λ part. IsPassOfAll part.commons r.1)) }
    ensures unused { IfOk result (λ r. IsUnused r.1) }
{
    let Parts {
        signer,
        anchors,
        routes,
        control,
        workers,
    } = parts;
    match Commons::new(alloc, anchors) {
        Ok((commons, pass)) => {
            let node = node_with(registry, commons, signer, control);
            let opened = Opened {
                node,
                routes,
                workers,
            };
            Ok((opened, pass))
        }
        Err(memory) => {
            drop(registry);
            drop(signer);
            drop(control);
            drop(routes);
            Err(memory)
        }
    }
}

fn node_with(registry: Registry, commons: Commons, signer: Signer, control: JwkSet) -> Node
    ensures { result ≡ record { registry = registry; resolver = Some (record { commons = commons; signer = signer; control = control }) } }
{
    Node {
        registry,
        resolver: Some(ResolverPart {
            commons,
            signer,
            control,
        }),
    }
}

/// What a node that resolves begins to serve with, and a pass of its cache and book, which has seen nothing.
pub(crate) fn open(alloc: Global, registry: Registry) -> Result<(Opened, FedPass), Memory>
    requires { IsResolver registry }
    ensures opened { IfOk result (λ r. IsOpenedFrom registry r.0) }
    ensures of { IfOk result (λ r. IfSome r.0.node.resolver (λ part. IsPassOfAll part.commons r.1)) }
    ensures unused { IfOk result (λ r. IsUnused r.1) }
{
    match parts_of(alloc, &registry) {
        Ok(parts) => open_with(alloc, registry, parts),
        Err(memory) => {
            drop(registry);
            Err(memory)
        }
    }
}
