// A configuration as it is written, and as it is read.

use fed_base::Text;
use fed_json::Json;

/// The text of a node's configuration, and the tree that it reads as (RFC 8259).
#[derive(Drop)]
pub struct ConfigText {
    pub text: Text,
    pub tree: Json,
}
