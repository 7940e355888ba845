// Which subordinates are listed.

ghost use Rattle.std.specs.Prelude.{◌≡◌, ◌||◌, bytes_eq, not, true};
ghost use Rattle.std.specs.List.{list_any};
ghost use Rattle.std.specs.Option.{option_map_or};
ghost use Rattle.policy_merge.specs.Scope.{is_empty};
ghost use Rattle.authority_core.specs.Issued.{is_among, passes};
ghost use Rattle.node_config.specs.Told.{told_subordinate};

use fed_base::{Duplicate, Memory, Seq, Text};
use node_config::SubordinateConfig;
use std::alloc::Global;

/// Which subordinates are listed (OpenID Federation 1.0 section 8.2.1). What isn't asked for filters nothing.
#[derive(Drop)]
pub struct ListQuery {
    /// Those with one of these types, where there are any.
    pub types: Seq<Text>,
    /// Those with a trust mark.
    pub trust_marked: bool,
    /// Those with a trust mark of this type.
    pub mark_type: Option<Text>,
    /// Those with subordinates of their own.
    pub intermediate: bool,
}

impl Duplicate for ListQuery {
    fn copy(&self, alloc: Global) -> Result<Self, Memory> {
        let types = self.types.copy(alloc)?;
        let mark_type = self.mark_type.copy(alloc)?;
        Ok(ListQuery {
            types,
            trust_marked: self.trust_marked,
            mark_type,
            intermediate: self.intermediate,
        })
    }
}

/// Whether the subordinate passes every filter.
pub(crate) fn passes(query: &ListQuery, s: &SubordinateConfig) -> bool
    ensures { result ≡ passes query.now (told_subordinate s.now) }
{
    has_type(query.types.as_slice(), s.listing.types.as_slice())
        && (!query.trust_marked || !has_none(s.listing.mark_types.as_slice()))
        && has_mark_type(query, s.listing.mark_types.as_slice())
        && (!query.intermediate || s.listing.intermediate)
}

fn has_type(wanted: &[Text], types: &[Text]) -> bool
    ensures { result ≡ (is_empty wanted.now || list_any (is_among types.now) wanted.now) }
{
    has_none(wanted) || has_any_of(types, wanted)
}

// Whether one of the types is wanted.
fn has_any_of(types: &[Text], wanted: &[Text]) -> bool
    ensures { result ≡ list_any (is_among types.now) wanted.now }
{
    wanted.iter().any(|text| is_among(types, text))
}

// Whether there is no text.
fn has_none(texts: &[Text]) -> bool
    ensures { result ≡ is_empty texts.now }
{
    match texts.split_first() {
        Some(_) => false,
        None => true,
    }
}

fn has_mark_type(query: &ListQuery, types: &[Text]) -> bool
    ensures { result ≡ option_map_or (is_among types.now) query.now.mark_type true }
{
    match &query.mark_type {
        Some(text) => is_among(types, text),
        None => true,
    }
}

/// Whether one of the texts is this one.
pub(crate) fn is_among(texts: &[Text], text: &Text) -> bool
    ensures { result ≡ is_among texts.now text.now }
{
    texts
        .iter()
        .any(|other| text.as_slice() == other.as_slice())
}
