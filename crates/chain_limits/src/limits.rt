// The first limit that a chain doesn't meet.

ghost use Rattle.std.specs.Prelude.{◌≡◌, ◌≤◌, ◌-◌, ◌↔◌, IfSome, IsTrue};
ghost use Rattle.std.specs.List.{list_all, list_any};
ghost use Rattle.entity_id.specs.Names.{matches};
ghost use Rattle.chain_limits.specs.Limits.{IsVerdict, admits};

use crate::constraints::Constraints;
use crate::place::Place;
use crate::verdict::LimitVerdict;
use entity_id::matches_name;
use fed_base::{Seq, Text};

/// The first limit that a chain doesn't meet (OpenID Federation 1.0 section 6.2). The places are those of the chain's
/// statements but the last, in order; the first is the leaf's, whose own constraints don't count. Of two limits that
/// one place sets, the length of the path comes first.
pub fn limits_met(places: &Seq<Place>) -> LimitVerdict
    ensures { IsVerdict places.now result }
{
    let all = places.as_slice();
    for j in 1..all.len() {
        let limits = &all[j].limits;
        if !reaches(limits, j - 1) {
            return LimitVerdict::PathLength(j as u64);
        }
        if !admits_all(limits, &all[..=j]) {
            return LimitVerdict::Name(j as u64);
        }
    }
    LimitVerdict::Met
}

fn reaches(limits: &Constraints, between: usize) -> bool
    ensures { IsTrue result ↔ IfSome limits.now.max_path (λ most. between ≤ most) }
{
    limits.max_path.is_none_or(|most| between as u64 <= most)
}

fn admits_all(limits: &Constraints, subjects: &[Place]) -> bool
    ensures { result ≡ list_all (λ subject. admits limits.now subject.host) subjects.now }
{
    subjects
        .iter()
        .all(|subject| admits_host(limits, subject.host.as_slice()))
}

fn admits_host(limits: &Constraints, host: &[u8]) -> bool
    ensures { result ≡ admits limits.now host.now }
{
    let permitted = match &limits.permitted {
        Some(names) => matches_any(host, names),
        None => true,
    };
    permitted && !matches_any(host, &limits.excluded)
}

fn matches_any(host: &[u8], names: &Seq<Text>) -> bool
    ensures { result ≡ list_any (matches host.now) names.now }
{
    names
        .as_slice()
        .iter()
        .any(|name| matches_name(host, name.as_slice()))
}
