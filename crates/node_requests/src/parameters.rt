// Parameters of a request, by their names.

ghost use Rattle.std.specs.Prelude.{◌≡◌, IfOk};
ghost use Rattle.std.specs.List.{AllByRecursion};
ghost use Rattle.http_plain.specs.Requests.{pairs_of};
ghost use Rattle.node_requests.specs.Parameters.{at_most_once, flag_of, once, truth_of, values_of};
ghost use Rattle.node_requests.specs.Steps.{HasUtf8Value, IsFound, identifier_once};

use entity_id::EntityId;
use fed_base::{Duplicate, Memory, Seq, Text};
use http_plain::Pair;
use std::alloc::Global;

// The values of a parameter.
#[derive(Clone, Copy)]
enum Found<'a> {
    Absent,
    Once(&'a Text),
    Again,
}

// How often a parameter stands.
fn find<'a>(pairs: &'a [Pair], name: &[u8]) -> Found<'a>
    ensures { IsFound result (values_of name.now pairs.now) }
{
    let mut found = Found::Absent;
    for pair in pairs {
        if pair.name.as_slice() == name {
            if let Found::Once(_) = found {
                return Found::Again;
            }
            found = Found::Once(&pair.value);
        }
    }
    found
}

/// The value of a parameter that stands exactly once.
pub(crate) fn once(alloc: Global, pairs: &[Pair], name: &[u8]) -> Result<Option<Text>, Memory>
    ensures { IfOk result (λ value. value ≡ once (values_of name.now pairs.now)) }
{
    match find(pairs, name) {
        Found::Once(value) => Ok(Some(value.copy(alloc)?)),
        Found::Absent | Found::Again => Ok(None),
    }
}

/// The identifier that a parameter is which stands exactly once.
pub(crate) fn identifier(
    alloc: Global,
    pairs: &[Pair],
    name: &[u8],
) -> Result<Option<EntityId>, Memory>
    ensures { IfOk result (λ id. id ≡ identifier_once (values_of name.now pairs.now)) }
{
    match find(pairs, name) {
        Found::Once(value) => EntityId::of(alloc, value.as_slice()),
        Found::Absent | Found::Again => Ok(None),
    }
}

/// The value of a parameter that stands at most once.
pub(crate) fn at_most_once(
    alloc: Global,
    pairs: &[Pair],
    name: &[u8],
) -> Result<Option<Option<Text>>, Memory>
    ensures { IfOk result (λ value. value ≡ at_most_once (values_of name.now pairs.now)) }
{
    match find(pairs, name) {
        Found::Absent => Ok(Some(None)),
        Found::Once(value) => Ok(Some(Some(value.copy(alloc)?))),
        Found::Again => Ok(None),
    }
}

/// The truth of a parameter that stands at most once, and false where it is absent.
pub(crate) fn flag(pairs: &[Pair], name: &[u8]) -> Option<bool>
    ensures { result ≡ flag_of (values_of name.now pairs.now) }
{
    match find(pairs, name) {
        Found::Absent => Some(false),
        Found::Once(word) => truth(word.as_slice()),
        Found::Again => None,
    }
}

fn truth(word: &[u8]) -> Option<bool>
    ensures { result ≡ truth_of word.now }
{
    if word == b"true".as_slice() {
        Some(true)
    } else if word == b"false".as_slice() {
        Some(false)
    } else {
        None
    }
}

/// The values of a parameter, in order.
pub(crate) fn values(alloc: Global, pairs: &[Pair], name: &[u8]) -> Result<Seq<Text>, Memory>
    ensures { IfOk result (λ values. values ≡ values_of name.now pairs.now) }
{
    let mut values = Seq::new(alloc);
    for pair in pairs {
        if pair.name.as_slice() == name {
            values.push(pair.value.copy(alloc)?)?;
        }
    }
    Ok(values)
}

/// The parameters in a body that is a form (URL Standard section 5.1).
pub(crate) fn form(alloc: Global, body: &[u8]) -> Result<Seq<Pair>, Memory>
    ensures pairs { IfOk result (λ pairs. pairs ≡ pairs_of body.now) }
    ensures utf8 { IfOk result (AllByRecursion HasUtf8Value) }
{
    let mut pairs = Seq::new(alloc);
    for pair in form_urlencoded::parse(alloc, body) {
        let (name, value) = pair?;
        let name = Text::of(alloc, name.as_bytes())?;
        let value = Text::of(alloc, value.as_bytes())?;
        pairs.push(Pair { name, value })?;
    }
    Ok(pairs)
}
