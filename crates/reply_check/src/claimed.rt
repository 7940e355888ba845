// What a reply claims.

use entity_id::EntityId;
use resolve_reply::Said;

/// What a reply claims (OpenID Federation 1.0 section 8.3.2).
#[derive(Drop)]
pub struct Claimed {
    /// The resolver.
    pub iss: EntityId,
    /// What it says of the entity.
    pub said: Said,
}
