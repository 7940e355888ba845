// What is registered of a relying party.

use entity_id::EntityId;
use fed_base::{Seq, Text};
use fed_json::Json;

/// What is registered of a relying party (OpenID Federation 1.0 section 12.2.3).
#[derive(Drop)]
pub(crate) struct Registration {
    /// The relying party.
    pub(crate) sub: EntityId,
    /// The moment of the registration, in seconds since 1970.
    pub(crate) iat: u64,
    /// Until when it lasts, in seconds since 1970.
    pub(crate) exp: u64,
    /// The parameters of its type `openid_relying_party`.
    pub(crate) party: Json,
    /// The texts of its trust chain, its configuration first.
    pub(crate) chain: Seq<Text>,
}
