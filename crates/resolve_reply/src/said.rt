// What a reply says.

use entity_id::EntityId;
use entity_statement::MarkEntry;
use fed_base::{Seq, Text};
use fed_json::Json;

/// What a reply says of an entity (OpenID Federation 1.0 section 8.3.2).
#[derive(Drop)]
pub struct Said {
    /// The entity.
    pub sub: EntityId,
    /// The moment of the reply, in seconds since 1970.
    pub iat: u64,
    /// Until when it holds, in seconds since 1970.
    pub exp: u64,
    /// The entity's metadata: an object from entity type to an object of parameters.
    pub metadata: Json,
    /// The texts of its trust chain, the entity's configuration first.
    pub chain: Seq<Text>,
    /// Its good marks.
    pub marks: Seq<MarkEntry>,
}
