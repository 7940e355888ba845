// The answer on a reply.

use crate::claimed::Claimed;
use crate::flaw::Flaw;
use chain_check::Reason;
use fed_base::Seq;

/// Why a relying party can't act on a reply. Of several reasons the first in this order is told.
#[derive(Drop)]
pub enum ReplyReason {
    /// The text isn't a compact text of the type `resolve-response+jwt` with the claims of a reply.
    Form,
    /// It isn't sealed by a key of the resolver.
    Signature,
    /// Its chain isn't valid up to the trust anchor, under the anchor's keys, at the reply's own moment. Places count from 0, the leaf's.
    Chain { place: u64, reason: Reason },
    /// It is about another entity than the chain's leaf.
    Subject,
    /// Its metadata isn't the leaf's under the merged policy, for an entity type that it carries.
    Metadata,
    /// It ends after the chain.
    End,
    /// A trust mark isn't good, as far as the reply shows it, or ends before the reply. Places count from 0.
    Mark { place: u64, flaw: Flaw },
    /// It isn't current: issued more than a minute after the moment, or ended.
    Times,
}

/// The answer on a reply.
#[derive(Drop)]
pub enum ReplyVerdict {
    /// A relying party can act on it.
    Sound {
        /// What it claims.
        claimed: Claimed,
        /// For each of its trust marks, whether the mark's signature was checked: it is where the mark's issuer is the leaf or the trust
        /// anchor, whose keys the chain shows. Of any other mark all but the signature and the delegation was looked at.
        checked: Seq<bool>,
    },
    /// It can't.
    Refused(ReplyReason),
}
