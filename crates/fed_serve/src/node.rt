// A node.

use crate::part::ResolverPart;
use authority_core::Registry;

/// A node: an entity that answers for itself and for its subordinates, and that resolves other entities where it has a part for that
/// (OpenID Federation 1.0 section 1.2).
#[derive(Drop)]
pub struct Node {
    pub registry: Registry,
    pub resolver: Option<ResolverPart>,
}
