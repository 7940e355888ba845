// What a search wants, and how it ends.

ghost use Rattle.std.specs.Prelude.{◌≡◌, IfOk};
ghost use Rattle.chain_climb.specs.declared.want.Want.TheVariants.{Superior};

use crate::path::Path;
use entity_id::EntityId;
use fed_base::{Duplicate, Memory, Text};
use std::alloc::Global;

/// How far one search goes. Its caller sets the numbers.
#[derive(Clone, Copy, Drop)]
pub struct Bounds {
    /// The most statements of superiors in a chain.
    pub depth: u64,
    /// The most URLs that are asked of the link.
    pub calls: u64,
    /// The most paths that are made, the leaf's own among them.
    pub paths: u64,
}

/// What a search wants next.
#[derive(Drop)]
pub enum Want {
    /// The configuration of an entity (OpenID Federation 1.0 section 9).
    Config {
        entity: EntityId,
        url: Text,
    },
    /// The statement of a superior about a subject (section 8.1).
    Superior {
        superior: EntityId,
        subject: EntityId,
        url: Text,
    },
    /// Whether the chain of this path is valid. Its texts stand at the path's URLs, in order.
    Judge(Path),
    /// Nothing more: the search has ended.
    Done(End),
}

/// How a search ended.
#[derive(Drop)]
pub enum End {
    /// The first valid path in the order of their lengths and hints, with the URLs of its chain.
    Found(Path),
    /// The leaf has no good configuration.
    NoLeaf,
    /// No chain is valid, and at least one is valid but for its policies.
    PolicyOnly,
    /// No chain is valid, and none would be without its policies.
    NoChain,
    /// A page had to be asked of the link, or a path had to be made, and as many were made as the bounds allow.
    Budget { calls: u64, paths: u64 },
}

impl Duplicate for Want {
    fn copy(&self, alloc: Global) -> Result<Self, Memory> {
        match self {
            Want::Config { entity, url } => {
                let entity = entity.copy(alloc)?;
                let url = url.copy(alloc)?;
                Ok(Want::Config { entity, url })
            }
            Want::Superior {
                superior,
                subject,
                url,
            } => copy_superior(alloc, superior, subject, url),
            Want::Judge(path) => Ok(Want::Judge(path.copy(alloc)?)),
            Want::Done(end) => Ok(Want::Done(end.copy(alloc)?)),
        }
    }
}

impl Duplicate for End {
    fn copy(&self, alloc: Global) -> Result<Self, Memory> {
        match self {
            End::Found(path) => Ok(End::Found(path.copy(alloc)?)),
            End::NoLeaf => Ok(End::NoLeaf),
            End::PolicyOnly => Ok(End::PolicyOnly),
            End::NoChain => Ok(End::NoChain),
            End::Budget { calls, paths } => Ok(End::Budget {
                calls: *calls,
                paths: *paths,
            }),
        }
    }
}

// A copy of the want of this statement.
fn copy_superior(
    alloc: Global,
    superior: &EntityId,
    subject: &EntityId,
    url: &Text,
) -> Result<Want, Memory>
    ensures { IfOk result (λ copy. copy ≡ Superior superior.now subject.now url.now) }
{
    let superior = superior.copy(alloc)?;
    let subject = subject.copy(alloc)?;
    let url = url.copy(alloc)?;
    Ok(Want::Superior {
        superior,
        subject,
        url,
    })
}
