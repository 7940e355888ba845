// The kinds of requests.

/// Which request of a node one is, by its endpoint (OpenID Federation 1.0 sections 8 and 9).
#[derive(Clone, Copy, Debug, PartialEq, Eq, Drop)]
pub enum Kind {
    /// The node's entity configuration (section 9).
    Configuration,
    /// The statement about a subordinate (section 8.1).
    Fetch,
    /// The identifiers of subordinates (section 8.2).
    List,
    /// The node's retired and revoked keys (section 8.7).
    HistoricalKeys,
    /// What has become of a trust mark (section 8.4).
    Status,
    /// A resolved entity (section 8.3), of a node that resolves.
    Resolve,
    /// Other keys for a trust anchor, which is this project's own, of a node that resolves.
    AnchorKeys,
    /// No request of the node, or one that want of memory left unknown.
    Other,
}
