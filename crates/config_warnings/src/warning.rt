// What is warned of.

ghost use Rattle.std.specs.Prelude.{◌≡◌, ◌++◌, OnOk};
ghost use Rattle.config_warnings.specs.Places.{warn};

use crate::part::Part;
use fed_base::{Memory, Seq, Text};
use policy_merge::Operator;
use std::alloc::Global;

/// What is wrong at a place.
#[derive(Clone, Copy, Drop)]
pub enum Kind {
    /// A member of that name isn't known there, and is left unread.
    Unknown(Part),
    /// A member of that name stands twice in one object, as it is written; the last counts.
    Twice,
    /// Two operators of a parameter don't stand together, the first such of a policy.
    Clash(Operator, Operator),
    /// The key set has no key that verifies anything.
    NoKey,
    /// There is no route to that host, the trust anchor's.
    NoRoute,
    /// No URL has that host, so the route is never taken.
    NoHost,
    /// An earlier route has that host, so the route is never taken.
    Second,
    /// The signing key of that name has ended.
    Ended,
}

/// What is wrong, and where.
#[derive(Drop)]
pub struct Warning {
    pub kind: Kind,
    /// Names of members and places in lists, as `subordinates[0].constraints`; empty for the whole configuration.
    pub place: Text,
    /// The name of a member, a host, or the name of a key; empty where the place says it.
    pub name: Text,
}

/// Warns of what is wrong at the place.
pub(crate) fn warn(
    alloc: Global,
    out: &mut Seq<Warning>,
    kind: Kind,
    place: &[u8],
    name: &[u8],
) -> Result<(), Memory>
    ensures { OnOk result (out.new ≡ out.old ++ warn kind place.now name.now) }
{
    let place = Text::of(alloc, place)?;
    let name = Text::of(alloc, name)?;
    out.push(Warning { kind, place, name })
}
