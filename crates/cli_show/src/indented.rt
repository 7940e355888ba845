// Values on lines.

ghost use Rattle.std.specs.Prelude.{◌≡◌, ◌++◌, ◌∷◌, ◌<◌, [], map, IfOk, IfSome, OnOk};
ghost use Rattle.std.specs.Fmt.{signed_decimal};
ghost use Rattle.fed_base.specs.Moments.{moment_limit};
ghost use Rattle.plain_notes.specs.Moments.{moment_text};
ghost use Rattle.cli_show.specs.Indented.{block, indented, inset_by, inset_byte, is_moment, level, member_text, moment_under, shown, truth, value_under};
ghost use Rattle.cli_show.specs.KeyViews.{view};

use crate::key_view::viewed;
use fed_base::{MOMENT_LIMIT, Memory, Text};
use fed_json::{Json, Member, count_below};
use plain_notes::{append_moment, append_string};
use std::alloc::Global;

/// The value on lines, with the dates of moments and with the thumbprints of keys, and without a line end behind it.
pub fn show_json(alloc: Global, tree: &Json) -> Result<Text, Memory>
    ensures { IfOk result (λ text. text ≡ indented (view tree.now)) }
{
    let seen = viewed(alloc, tree)?;
    let text = lines_of(alloc, &seen);
    drop(seen);
    text
}

fn lines_of(alloc: Global, tree: &Json) -> Result<Text, Memory>
    ensures { IfOk result (λ text. text ≡ indented tree.now) }
{
    let mut text = Text::new(alloc);
    append_value(alloc, &mut text, b"", tree)?;
    Ok(text)
}

// Appends a value whose lines but the first stand in by the margin.
#[cycle(indented)]
fn append_value(alloc: Global, text: &mut Text, margin: &[u8], tree: &Json) -> Result<(), Memory>
    ensures { OnOk result (text.new ≡ text.old ++ inset_by margin.now (indented tree.now)) }
{
    match tree {
        Json::Null => text.append(b"null"),
        Json::Bool(b) => text.append(truth(*b)),
        Json::Int(n) => append_number(alloc, text, margin, *n),
        Json::Odd => text.append(b"(a number that isn't whole)"),
        Json::Text(bytes) => append_string(text, bytes.as_slice()),
        Json::List(items) => append_list(alloc, text, margin, items.as_slice()),
        Json::Object(members) => append_object(alloc, text, margin, members.as_slice()),
    }
}

#[cycle(indented)]
fn append_list(alloc: Global, text: &mut Text, margin: &[u8], items: &[Json]) -> Result<(), Memory>
    ensures { OnOk result (text.new ≡ text.old ++ inset_by margin.now (block 91 93 (map indented items.now))) }
{
    if items.is_empty() {
        return text.append(b"[]");
    }
    let inner = deeper(alloc, margin)?;
    let mut before = b'[';
    for item in items {
        append_item(alloc, text, before, inner.as_slice(), item)?;
        before = b',';
    }
    drop(inner);
    append_end(text, margin, b']')
}

// An item on a line of its own, behind the byte that stands before it.
#[cycle(indented)]
fn append_item(
    alloc: Global,
    text: &mut Text,
    before: u8,
    margin: &[u8],
    item: &Json,
) -> Result<(), Memory>
    ensures { OnOk result (text.new ≡ text.old ++ (before ∷ 10 ∷ (margin.now ++ inset_by margin.now (indented item.now)))) }
{
    append_line(text, before, margin)?;
    append_value(alloc, text, margin, item)
}

#[cycle(indented)]
fn append_object(
    alloc: Global,
    text: &mut Text,
    margin: &[u8],
    members: &[Member],
) -> Result<(), Memory>
    ensures { OnOk result (text.new ≡ text.old ++ inset_by margin.now (block 123 125 (map member_text members.now))) }
{
    if members.is_empty() {
        return text.append(b"{}");
    }
    let inner = deeper(alloc, margin)?;
    let mut before = b'{';
    for member in members {
        append_member(alloc, text, before, inner.as_slice(), member)?;
        before = b',';
    }
    drop(inner);
    append_end(text, margin, b'}')
}

// A member in the same way: its name, a colon and its value.
#[cycle(indented)]
fn append_member(
    alloc: Global,
    text: &mut Text,
    before: u8,
    margin: &[u8],
    member: &Member,
) -> Result<(), Memory>
    ensures { OnOk result (text.new ≡ text.old ++ (before ∷ 10 ∷ (margin.now ++ inset_by margin.now (member_text member.now)))) }
{
    append_line(text, before, margin)?;
    append_string(text, member.name.as_slice())?;
    text.append(b": ")?;
    append_under(alloc, text, margin, member)
}

// The value of a member.
#[cycle(indented)]
fn append_under(
    alloc: Global,
    text: &mut Text,
    margin: &[u8],
    member: &Member,
) -> Result<(), Memory>
    ensures { OnOk result (text.new ≡ text.old ++ inset_by margin.now (value_under member.now.name (shown member.now.value))) }
{
    match moment_under(member) {
        Some(moment) => append_dated(alloc, text, margin, moment),
        None => append_value(alloc, text, margin, &member.value),
    }
}

// The moment that a member is.
fn moment_under(member: &Member) -> Option<u64>
    ensures moment { result ≡ moment_under member.now }
    ensures small { IfSome result (λ moment. moment < moment_limit) }
{
    if is_moment(member.name.as_slice()) {
        count_below(&member.value, MOMENT_LIMIT)
    } else {
        None
    }
}

// Whether the member of that name is a moment.
fn is_moment(name: &[u8]) -> bool
    ensures { result ≡ is_moment name.now }
{
    name == b"exp".as_slice()
        || name == b"iat".as_slice()
        || name == b"nbf".as_slice()
        || name == b"revoked_at".as_slice()
}

fn truth(b: bool) -> &'static [u8]
    ensures { result.now ≡ truth b }
{
    if b { b"true" } else { b"false" }
}

fn append_number(alloc: Global, text: &mut Text, margin: &[u8], n: i128) -> Result<(), Memory>
    ensures { OnOk result (text.new ≡ text.old ++ inset_by margin.now (signed_decimal n)) }
{
    let digits = format!(in alloc; "{n}")?;
    append_inset(text, margin, digits.as_bytes())
}

fn append_dated(alloc: Global, text: &mut Text, margin: &[u8], moment: u64) -> Result<(), Memory>
    ensures { OnOk result (text.new ≡ text.old ++ inset_by margin.now (moment_text moment)) }
{
    let mut piece = Text::new(alloc);
    append_moment(alloc, &mut piece, moment)?;
    append_inset(text, margin, piece.as_slice())
}

// The bytes of a number or of a date, of which each line but the first would stand in by the margin.
fn append_inset(text: &mut Text, margin: &[u8], bytes: &[u8]) -> Result<(), Memory>
    ensures { OnOk result (text.new ≡ text.old ++ inset_by margin.now bytes.now) }
{
    for byte in bytes {
        append_inset_byte(text, margin, *byte)?;
    }
    Ok(())
}

fn append_inset_byte(text: &mut Text, margin: &[u8], byte: u8) -> Result<(), Memory>
    ensures { OnOk result (text.new ≡ text.old ++ inset_byte margin.now byte) }
{
    text.push(byte)?;
    if byte == b'\n' {
        text.append(margin)
    } else {
        Ok(())
    }
}

// The margin a level further in.
fn deeper(alloc: Global, margin: &[u8]) -> Result<Text, Memory>
    ensures { IfOk result (λ inner. inner ≡ margin.now ++ level) }
{
    let mut inner = Text::of(alloc, margin)?;
    inner.append(b"  ")?;
    Ok(inner)
}

// A byte and the beginning of the line behind it.
fn append_line(text: &mut Text, before: u8, margin: &[u8]) -> Result<(), Memory>
    ensures { OnOk result (text.new ≡ text.old ++ (before ∷ 10 ∷ margin.now)) }
{
    text.append(&[before, b'\n'])?;
    text.append(margin)
}

// The bracket that ends a block, on a line of its own.
fn append_end(text: &mut Text, margin: &[u8], closing: u8) -> Result<(), Memory>
    ensures { OnOk result (text.new ≡ text.old ++ (10 ∷ (margin.now ++ closing ∷ []))) }
{
    text.push(b'\n')?;
    text.append(margin)?;
    text.push(closing)
}
