// The keys of a list, in their order.

ghost use Rattle.std.specs.Prelude.{◌≡◌, ◌≤◌, [], IfOk, IfSome, IsTrue, length};
ghost use Rattle.std.specs.Option.{option_copied};
ghost use Rattle.std.specs.List.{list_all};
ghost use Rattle.fed_json.specs.Forms.{IsWellFormed, well_formed};
ghost use Rattle.jwk_set.specs.Keys.{is_key};
ghost use Rattle.jwk_set.specs.KeySets.{Gives, are_distinct, keys_after, kid_of, repeats_kid};
ghost use Rattle.jwk_set.specs.Listed.{listed_in, max_keys};

use crate::fault::SetFault;
use crate::jwk::{Jwk, read_key};
use fed_base::{Seq, Text};
use fed_json::{Json, find, text_at};
use std::alloc::Global;

// How many keys a set has at most.
const MAX_KEYS: usize = 64;

/// The members of a set: the list `keys` of its object.
#[tactic(auto, unfolding(crate::specs::Listed::listed_in))]
pub(crate) fn listed_in(tree: &Json) -> Option<&[Json]>
    ensures listed { option_copied result ≡ listed_in tree.now }
    ensures few { IfSome result (λ members. length members.now ≤ max_keys) }
    ensures formed { IsWellFormed tree.now → IfSome result (λ members. IsTrue (list_all well_formed members.now)) }
{
    let Json::Object(members) = tree else {
        return None;
    };
    match find(members.as_slice(), b"keys") {
        Some(Json::List(keys)) if keys.len() <= MAX_KEYS => Some(keys.as_slice()),
        _ => None,
    }
}

/// The keys that the members are, or the fault of the first that has one.
pub(crate) fn read_keys(alloc: Global, members: &[Json]) -> Result<Seq<Jwk>, SetFault>
    requires few { length members.now ≤ max_keys }
    requires formed { IsTrue (list_all well_formed members.now) }
    ensures exact { Gives result (keys_after [] members.now) }
    ensures few { IfOk result (λ keys. length keys ≡ length members.now) }
    ensures formed { IfOk result (λ keys. IsTrue (list_all is_key keys)) }
    ensures distinct { IfOk result (λ keys. IsTrue (are_distinct keys)) }
{
    let mut keys = Seq::new(alloc);
    for member in members {
        let place = keys.len() as u64;
        let Some(key) = read_key(alloc, member)? else {
            return Err(SetFault::Shape(place));
        };
        if repeats_kid(keys.as_slice(), &key) {
            return Err(SetFault::DoubleKid(place));
        }
        keys.push(key)?;
    }
    Ok(keys)
}

// Whether one of the keys has the `kid` of this one.
#[tactic(auto, unfolding(crate::specs::KeySets::repeats_kid))]
fn repeats_kid(keys: &[Jwk], key: &Jwk) -> bool
    ensures { result ≡ repeats_kid keys.now key.now }
{
    match kid_of(key) {
        Some(kid) => keys.iter().any(|earlier| kid_of(earlier).is_some_and(|name| name.as_slice()
            == kid.as_slice())),
        None => false,
    }
}

// The name of a key, where it is a text.
fn kid_of(key: &Jwk) -> Option<&Text>
    ensures { option_copied result ≡ kid_of key.now }
{
    match key {
        Jwk::Own { kid, .. } => Some(kid),
        Jwk::Foreign(Json::Object(members)) => text_at(members.as_slice(), b"kid"),
        Jwk::Foreign(_) => None,
    }
}
