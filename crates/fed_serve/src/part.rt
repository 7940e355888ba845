// What a node resolves with.

use fed_resolver::Signer;
use jwk_set::JwkSet;
use statement_shelf::Commons;

/// What a node resolves with.
#[derive(Drop)]
pub struct ResolverPart {
    /// The cache of statements and the book of trust anchors' keys.
    pub commons: Commons,
    /// Who signs replies.
    pub signer: Signer,
    /// The keys at whose word those of a trust anchor are changed.
    pub control: JwkSet,
}
