// Places of a configuration, and what has to stand there.

use crate::fault::Kind;
use crate::forms::Form;
use crate::stop::{Stop, fault, other};
use entity_id::EntityId;
use fed_base::{Memory, Text};
use fed_json::{Json, Member, find};
use std::alloc::Global;

/// The member of that name of the object at the place.
pub(crate) fn under(alloc: Global, place: &[u8], name: &[u8]) -> Result<Text, Memory> {
    let mut text = Text::of(alloc, place)?;
    if !place.is_empty() {
        text.push(b'.')?;
    }
    text.append(name)?;
    Ok(text)
}

/// That place of the list at the place.
pub(crate) fn item_at(alloc: Global, place: &[u8], index: usize) -> Result<Text, Memory> {
    let digits = format!(in alloc; "{index}")?;
    let mut text = Text::of(alloc, place)?;
    text.push(b'[')?;
    text.append(digits.as_bytes())?;
    text.push(b']')?;
    Ok(text)
}

/// The members of the object that has to stand at the place.
pub(crate) fn members_at<'a>(
    alloc: Global,
    place: &[u8],
    form: Form,
    tree: &'a Json,
) -> Result<&'a [Member], Stop> {
    match tree {
        Json::Object(members) => Ok(members.as_slice()),
        _ => Err(other(alloc, place, form, tree)),
    }
}

/// The items of the list that has to stand at the place.
pub(crate) fn items_at<'a>(
    alloc: Global,
    place: &[u8],
    form: Form,
    tree: &'a Json,
) -> Result<&'a [Json], Stop> {
    match tree {
        Json::List(items) => Ok(items.as_slice()),
        _ => Err(other(alloc, place, form, tree)),
    }
}

/// The value of the member of that name, which has to be there.
pub(crate) fn needed<'a>(
    alloc: Global,
    place: &[u8],
    members: &'a [Member],
    name: &[u8],
    form: Form,
) -> Result<&'a Json, Stop> {
    match find(members, name) {
        Some(tree) => Ok(tree),
        None => {
            let place = under(alloc, place, name)?;
            Err(fault(alloc, place.as_slice(), Kind::Missing(form)))
        }
    }
}

/// Stops where what stands at the place isn't of that form.
pub(crate) fn hold(
    alloc: Global,
    place: &[u8],
    form: Form,
    tree: &Json,
    holds: bool,
) -> Result<(), Stop> {
    if holds {
        Ok(())
    } else {
        Err(other(alloc, place, form, tree))
    }
}

/// Stops where the member of that name isn't a whole number from the one to the other.
pub(crate) fn number_in(
    alloc: Global,
    place: &[u8],
    members: &[Member],
    name: &[u8],
    least: u64,
    most: u64,
) -> Result<(), Stop> {
    let form = Form::Number(least, most);
    let tree = needed(alloc, place, members, name, form)?;
    let place = under(alloc, place, name)?;
    hold(
        alloc,
        place.as_slice(),
        form,
        tree,
        is_within(tree, least, most),
    )
}

/// The same of a member that may be absent.
pub(crate) fn possible_number(
    alloc: Global,
    place: &[u8],
    members: &[Member],
    name: &[u8],
    least: u64,
    most: u64,
) -> Result<(), Stop> {
    if find(members, name).is_some() {
        number_in(alloc, place, members, name, least, most)
    } else {
        Ok(())
    }
}

fn is_within(tree: &Json, least: u64, most: u64) -> bool {
    match tree {
        Json::Int(n) => least as i128 <= *n && *n <= most as i128,
        _ => false,
    }
}

/// Stops where the member of that name, which has to be there, isn't a text.
pub(crate) fn text_in(
    alloc: Global,
    place: &[u8],
    members: &[Member],
    name: &[u8],
    form: Form,
) -> Result<(), Stop> {
    let tree = needed(alloc, place, members, name, form)?;
    let place = under(alloc, place, name)?;
    hold(alloc, place.as_slice(), form, tree, is_text(tree))
}

fn is_text(tree: &Json) -> bool {
    matches!(tree, Json::Text(_))
}

/// Stops where the member of that name, which has to be there, identifies no entity.
pub(crate) fn identifier_in(
    alloc: Global,
    place: &[u8],
    members: &[Member],
    name: &[u8],
) -> Result<(), Stop> {
    let tree = needed(alloc, place, members, name, Form::Identifier)?;
    let place = under(alloc, place, name)?;
    identifier_at(alloc, place.as_slice(), tree)
}

/// Stops where what stands at the place identifies no entity.
pub(crate) fn identifier_at(alloc: Global, place: &[u8], tree: &Json) -> Result<(), Stop> {
    let identifies = identifies(alloc, tree)?;
    hold(alloc, place, Form::Identifier, tree, identifies)
}

fn identifies(alloc: Global, tree: &Json) -> Result<bool, Memory> {
    match tree {
        Json::Text(text) => Ok(EntityId::of(alloc, text.as_slice())?.is_some()),
        _ => Ok(false),
    }
}

/// Stops where what stands at the place is no list of texts.
pub(crate) fn texts_at(alloc: Global, place: &[u8], tree: &Json) -> Result<(), Stop> {
    for (index, item) in items_at(alloc, place, Form::Texts, tree)?
        .iter()
        .enumerate()
    {
        if !is_text(item) {
            let place = item_at(alloc, place, index)?;
            return Err(other(alloc, place.as_slice(), Form::Text, item));
        }
    }
    Ok(())
}

/// The same of a member that may be absent.
pub(crate) fn possible_texts(
    alloc: Global,
    place: &[u8],
    members: &[Member],
    name: &[u8],
) -> Result<(), Stop> {
    match find(members, name) {
        Some(tree) => {
            let place = under(alloc, place, name)?;
            texts_at(alloc, place.as_slice(), tree)
        }
        None => Ok(()),
    }
}

/// Stops at the first number below the place that isn't kept as it is written.
#[cycle(whole)]
pub(crate) fn whole_at(alloc: Global, place: &[u8], tree: &Json) -> Result<(), Stop> {
    match tree {
        Json::Odd => Err(other(alloc, place, Form::Whole, tree)),
        Json::List(items) => whole_items(alloc, place, items.as_slice()),
        Json::Object(members) => whole_members(alloc, place, members.as_slice()),
        _ => Ok(()),
    }
}

#[cycle(whole)]
fn whole_items(alloc: Global, place: &[u8], items: &[Json]) -> Result<(), Stop> {
    for (index, item) in items.iter().enumerate() {
        let place = item_at(alloc, place, index)?;
        whole_at(alloc, place.as_slice(), item)?;
    }
    Ok(())
}

#[cycle(whole)]
fn whole_members(alloc: Global, place: &[u8], members: &[Member]) -> Result<(), Stop> {
    for member in members {
        let place = under(alloc, place, member.name.as_slice())?;
        whole_at(alloc, place.as_slice(), &member.value)?;
    }
    Ok(())
}
