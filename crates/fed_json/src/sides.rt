// Two lists side by side.

ghost use Rattle.std.specs.Prelude.{◌≡◌, ◌∷◌, ◌<◌, ◌+◌, [], map, length, MatchOption, IsTrue, Some, None};
ghost use Rattle.std.specs.Option.{option_copied};
ghost use Rattle.fed_json.specs.Forms.{rising};
ghost use Rattle.fed_json.specs.Tables.{sides};

use crate::named::HasName;
use fed_base::Text;
use std::cmp::Ordering;

/// What two lists have under one name: one of them or both have it.
#[derive(Drop)]
pub struct Side<'a, U, L> {
    /// The name that both items have.
    pub name: &'a Text,
    /// The item of the upper list.
    pub upper: Option<&'a U>,
    /// The item of the lower list.
    pub lower: Option<&'a L>,
}

/// What is left of two lists that are gone through side by side, in byte order of the names.
#[derive(Drop)]
pub struct Sides<'a, U, L> {
    /// The items that are left of the upper list, whose names rise.
    pub upper: &'a [U],
    /// The items that are left of the lower list, whose names rise.
    pub lower: &'a [L],
}

impl<'a, U: HasName, L: HasName> Sides<'a, U, L> {
    /// The least name that is left, and what both lists have under it.
    pub fn next(&mut self) -> Option<Side<'a, U, L>>
        requires upper_rises { IsTrue (rising (map U.name_of self.old.upper.now)) }
        requires lower_rises { IsTrue (rising (map L.name_of self.old.lower.now)) }
        ensures side { MatchOption result
            (sides U.name_of L.name_of self.old.upper.now self.old.lower.now ≡ [])
            (λ side. sides U.name_of L.name_of self.old.upper.now self.old.lower.now
            ≡ record { name = side.name.now; upper = option_copied side.upper; lower = option_copied side.lower }
            ∷ sides U.name_of L.name_of self.new.upper.now self.new.lower.now) }
        ensures upper_rises { IsTrue (rising (map U.name_of self.new.upper.now)) }
        ensures lower_rises { IsTrue (rising (map L.name_of self.new.lower.now)) }
        ensures shorter { MatchOption result
            (length self.old.upper.now + length self.old.lower.now ≡ 0)
            (λ _. length self.new.upper.now + length self.new.lower.now < length self.old.upper.now + length self.old.lower.now) }
    {
        match (self.upper.split_first(), self.lower.split_first()) {
            (None, None) => None,
            (Some((upper, others)), None) => {
                self.upper = others;
                Some(only_upper(upper))
            }
            (None, Some((lower, others))) => {
                self.lower = others;
                Some(only_lower(lower))
            }
            (Some((upper, uppers)), Some((lower, lowers))) => {
                match upper.name().as_slice().cmp(lower.name().as_slice()) {
                    Ordering::Less => {
                        self.upper = uppers;
                        Some(only_upper(upper))
                    }
                    Ordering::Greater => {
                        self.lower = lowers;
                        Some(only_lower(lower))
                    }
                    Ordering::Equal => {
                        self.upper = uppers;
                        self.lower = lowers;
                        Some(Side {
                            name: upper.name(),
                            upper: Some(upper),
                            lower: Some(lower),
                        })
                    }
                }
            }
        }
    }
}

fn only_upper<'a, U: HasName, L>(upper: &'a U) -> Side<'a, U, L>
    ensures name { result.name.now ≡ U.name_of upper.now }
    ensures upper { option_copied result.upper ≡ Some upper.now }
    ensures lower { option_copied result.lower ≡ None }
{
    Side {
        name: upper.name(),
        upper: Some(upper),
        lower: None,
    }
}

fn only_lower<'a, U, L: HasName>(lower: &'a L) -> Side<'a, U, L>
    ensures name { result.name.now ≡ L.name_of lower.now }
    ensures upper { option_copied result.upper ≡ None }
    ensures lower { option_copied result.lower ≡ Some lower.now }
{
    Side {
        name: lower.name(),
        upper: None,
        lower: Some(lower),
    }
}
