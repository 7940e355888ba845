// Why a configuration isn't read.

use crate::forms::Form;
use fed_base::{Memory, Text};
use fed_json::{Json, is_whole, write_tree};
use std::alloc::Global;

/// The first member of a configuration that isn't of its form, and where in it.
#[derive(Drop)]
pub struct Fault {
    /// The member's name.
    pub member: Text,
    /// Names of members and places in lists, as `subordinates[17].jwks.keys[0].pub`; empty for the whole configuration.
    pub place: Text,
    pub kind: Kind,
}

/// What is wrong at a place.
#[derive(Drop)]
pub enum Kind {
    /// Nothing stands there, and something of this form must.
    Missing(Form),
    /// Something stands there that isn't of this form.
    Other(Form, Found),
    /// The list that stands there has so many items, which isn't of this form.
    Count(Form, u64),
    /// What stands there, an entity or the name of a key, stands at this earlier place too.
    Again(Text),
    /// The node itself stands there, and another entity must.
    Itself,
    /// The private part of a key stands there.
    Private,
    /// A key ring stands there, with its seeds, and a key set must.
    Ring,
}

/// What stands in place of what must.
#[derive(Drop)]
pub enum Found {
    /// This text of JSON, of a text, a whole number, true, false or null.
    Shown(Text),
    /// A number that isn't kept as it is written: with a fraction, an exponent or too many digits, or `-0`.
    Odd,
    /// A key that stands in no set.
    Key,
    List,
    Object,
}

/// What stands there.
pub(crate) fn found_in(alloc: Global, tree: &Json) -> Result<Found, Memory> {
    match tree {
        Json::Odd => Ok(Found::Odd),
        Json::List(_) => Ok(Found::List),
        Json::Object(_) => Ok(Found::Object),
        _ => shown(alloc, tree),
    }
}

fn shown(alloc: Global, tree: &Json) -> Result<Found, Memory> {
    if is_whole(tree) {
        Ok(Found::Shown(write_tree(alloc, tree)?))
    } else {
        Ok(Found::Odd)
    }
}
