// A resolver, opened.

ghost use Rattle.std.specs.Prelude.{IfOk, IfSome};
ghost use Rattle.statement_shelf.specs.Passes.{IsPassOfAll};

use crate::federation::{RESOLVER, RESOLVER_RING, registry_of};
use authority_core::Registry;
use fed_base::Memory;
use fed_serve::{Node, ResolverPart};
use node_files::{Parts, parts_of};
use statement_shelf::{Commons, FedPass};
use std::alloc::Global;

/// The resolver, and a pass of its cache and its book, which has seen nothing.
#[derive(Drop)]
pub(crate) struct Opened {
    pub(crate) node: Node,
    pub(crate) pass: FedPass,
}

/// Opens the resolver.
pub(crate) fn open(alloc: Global) -> Result<Opened, Memory>
    ensures { IfOk result (λ opened. IfSome opened.node.resolver (λ part. IsPassOfAll part.commons opened.pass)) }
{
    let registry = registry_of(alloc, RESOLVER, RESOLVER_RING)?;
    match part_of(alloc, &registry) {
        Ok((part, pass)) => {
            let node = Node {
                registry,
                resolver: Some(part),
            };
            Ok(Opened { node, pass })
        }
        Err(memory) => {
            drop(registry);
            Err(memory)
        }
    }
}

// What the node resolves with, and a pass.
fn part_of(alloc: Global, registry: &Registry) -> Result<(ResolverPart, FedPass), Memory>
    ensures { IfOk result (λ opened. IsPassOfAll opened.0.commons opened.1) }
{
    let Some(_) = registry.resolver_config() else {
        return Err(Memory);
    };
    let parts = parts_of(alloc, registry)?;
    open_parts(alloc, parts)
}

// Opens the cache and the book.
fn open_parts(alloc: Global, parts: Parts) -> Result<(ResolverPart, FedPass), Memory>
    ensures { IfOk result (λ opened. IsPassOfAll opened.0.commons opened.1) }
{
    let Parts {
        signer,
        anchors,
        routes,
        control,
        workers: _,
    } = parts;
    drop(routes);
    match Commons::new(alloc, anchors) {
        Ok((commons, pass)) => {
            let part = ResolverPart {
                commons,
                signer,
                control,
            };
            Ok((part, pass))
        }
        Err(_) => {
            drop(signer);
            drop(control);
            Err(Memory)
        }
    }
}
