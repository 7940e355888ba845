// The answer on a trust mark.

/// Why a mark isn't good. Of several reasons the first in this order is told.
#[derive(Clone, Copy, Debug, PartialEq, Eq, Drop)]
pub enum MarkReason {
    /// The text doesn't read as a trust mark.
    Form,
    /// It is about another entity.
    Subject,
    /// It is of another type than its entry says.
    Kind,
    /// The trust anchor's configuration doesn't list the type among `trust_mark_issuers`.
    Unlisted,
    /// The list of the type there isn't empty and hasn't the issuer.
    Issuer,
    /// It isn't current: issued more than a minute after the moment, or ended.
    Times,
    /// It isn't sealed by a key of the issuer's configuration.
    Signature,
    /// The type has an owner, and the mark has no current delegation from the owner to the issuer for it that is sealed by
    /// the owner's keys.
    Delegation,
}

/// The answer on a mark.
#[derive(Clone, Copy, Debug, PartialEq, Eq, Drop)]
pub enum MarkVerdict {
    /// It is good until this moment, in seconds since 1970, or without end.
    Good(Option<u64>),
    /// It isn't.
    Bad(MarkReason),
}
