// What is told of a mark.

ghost use Rattle.std.specs.Prelude.{◌≡◌, Some};
ghost use Rattle.mark_status.specs.Tells.{keeps, tell_of_status};

use fed_base::{Duplicate, Memory};
use std::alloc::Global;
use trust_mark::MarkStatus;

/// What a mark's issuer tells of it (OpenID Federation 1.0 section 8.4).
#[derive(Clone, Copy, Debug, PartialEq, Eq, Drop)]
pub enum Tell {
    /// The issuer answered that it is active.
    Active,
    /// The issuer's configuration names no status endpoint, and nobody was asked.
    Unasked,
    /// The issuer answered that it isn't active but this.
    Refused(MarkStatus),
    /// What came is no answer of the issuer on this mark.
    Useless,
    /// The post failed: the asker's count of faults rose.
    Fault,
}

impl Tell {
    /// Whether a mark of which this is told is kept.
    pub fn keeps(self) -> bool
        ensures { result ≡ keeps self }
    {
        matches!(self, Tell::Active | Tell::Unasked)
    }

    // What an answer of this status tells.
    pub(crate) fn of(status: MarkStatus) -> Tell
        ensures { result ≡ tell_of_status (Some status) }
    {
        match status {
            MarkStatus::Active => Tell::Active,
            status => Tell::Refused(status),
        }
    }
}

impl Duplicate for Tell {
    fn copy(&self, _alloc: Global) -> Result<Self, Memory> {
        Ok(*self)
    }
}
