// What is asked for.

use entity_id::EntityId;
use fed_base::Text;

/// By whom a relying party is to be registered, and up to which trust anchor.
#[derive(Clone, Copy)]
pub struct RegisterOrder<'a> {
    /// The name of the node's configuration file.
    pub config: &'a Text,
    /// The trust anchor, one of the configuration's.
    pub anchor: &'a EntityId,
}
