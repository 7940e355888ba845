// What a node is asked.

ghost use Rattle.std.specs.Prelude.{◌≡◌};
ghost use Rattle.node_requests.specs.Requests.{kind_of};

use crate::change::AnchorChange;
use crate::kind::Kind;
use authority_core::ListQuery;
use fed_base::{Duplicate, Memory, Text};
use resolve_round::ResolveRequest;
use std::alloc::Global;

/// What a node is asked (OpenID Federation 1.0 sections 8 and 9).
#[derive(Drop)]
pub enum Asked {
    /// Its entity configuration.
    Configuration,
    /// The statement about this subject, any text.
    Fetch(Text),
    /// The identifiers of the subordinates that pass these filters.
    List(ListQuery),
    /// Its retired and revoked keys.
    HistoricalKeys,
    /// What has become of this trust mark, any UTF-8 text.
    Status(Text),
    /// A resolved entity.
    Resolution(ResolveRequest),
    /// To take other keys for a trust anchor.
    Rotation(AnchorChange),
}

impl Asked {
    /// The kind of the request.
    pub fn kind(&self) -> Kind
        ensures { result ≡ kind_of self.now }
    {
        match self {
            Asked::Configuration => Kind::Configuration,
            Asked::Fetch(_) => Kind::Fetch,
            Asked::List(_) => Kind::List,
            Asked::HistoricalKeys => Kind::HistoricalKeys,
            Asked::Status(_) => Kind::Status,
            Asked::Resolution(_) => Kind::Resolve,
            Asked::Rotation(_) => Kind::AnchorKeys,
        }
    }
}

impl Duplicate for Asked {
    fn copy(&self, alloc: Global) -> Result<Self, Memory> {
        match self {
            Asked::Configuration => Ok(Asked::Configuration),
            Asked::Fetch(sub) => Ok(Asked::Fetch(sub.copy(alloc)?)),
            Asked::List(query) => Ok(Asked::List(query.copy(alloc)?)),
            Asked::HistoricalKeys => Ok(Asked::HistoricalKeys),
            Asked::Status(mark) => Ok(Asked::Status(mark.copy(alloc)?)),
            Asked::Resolution(resolution) => Ok(Asked::Resolution(resolution.copy(alloc)?)),
            Asked::Rotation(change) => Ok(Asked::Rotation(change.copy(alloc)?)),
        }
    }
}
