// The trust marks of a node.

ghost use Rattle.std.specs.Prelude.{◌≡◌, ◌<◌, ◌++◌, ◌∷◌, codes, decimal, flat_map, IfOk, OnOk, Some};
ghost use Rattle.std.specs.Option.{option_copied};
ghost use Rattle.fed_base.specs.Moments.{moment_limit};
ghost use Rattle.trust_mark.specs.Marks.{mark_of};
ghost use Rattle.config_summary.specs.Marks.{entries_of, fault_from, fault_of, first_fault};
ghost use Rattle.config_summary.specs.Summaries.{end_words, line, mark_end, mark_end_at, mark_line, mark_words};

use crate::ends::append_end;
use crate::lines::append_number;
use entity_id::EntityId;
use entity_statement::{MarkEntry, read_marks};
use fed_base::{Memory, Seq, Text};
use fed_json::Json;
use jws_form::{FormFault, split};
use plain_notes::{append_moment, string};
use std::alloc::Global;
use trust_mark::{Mark, MarkFault};

/// The place and the fault of the first trust mark of the claim that isn't a mark of its type about this entity, as `trust_marks 0 Names`:
/// `Form` where its text is no trust mark, and `Names` where it is about another entity or of another type.
#[tactic(auto, unfolding(crate::specs::Marks::first_fault))]
pub fn first_fault(
    alloc: Global,
    id: &EntityId,
    marks: &Option<Json>,
) -> Result<Option<Text>, Memory>
    ensures { IfOk result (λ fault. fault ≡ first_fault id.now marks.now) }
{
    let entries = entries_of(alloc, marks)?;
    fault_among(alloc, id, entries.as_slice())
}

/// The entries of the claim.
pub(crate) fn entries_of(alloc: Global, marks: &Option<Json>) -> Result<Seq<MarkEntry>, Memory>
    ensures { IfOk result (λ entries. entries ≡ entries_of marks.now) }
{
    let Some(tree) = marks else {
        return Ok(Seq::new(alloc));
    };
    match read_marks(alloc, tree)? {
        Some(entries) => Ok(entries),
        None => Ok(Seq::new(alloc)),
    }
}

fn fault_among(alloc: Global, id: &EntityId, entries: &[MarkEntry]) -> Result<Option<Text>, Memory>
    ensures { IfOk result (λ fault. fault ≡ fault_from id.now 0 entries.now) }
{
    let mut place = 0;
    for entry in entries {
        if let Some(fault) = fault_of(alloc, id, entry)? {
            return Ok(Some(fault_at(alloc, place, fault)?));
        }
        place += 1;
    }
    Ok(None)
}

fn fault_at(alloc: Global, place: u64, fault: &[u8]) -> Result<Text, Memory>
    ensures { IfOk result (λ text. text ≡ codes "trust_marks " ++ (decimal place ++ (32 ∷ fault.now))) }
{
    let mut text = Text::of(alloc, b"trust_marks ")?;
    append_number(alloc, &mut text, place)?;
    text.push(b' ')?;
    text.append(fault)?;
    Ok(text)
}

// Why the text of the entry isn't a mark of its type about the entity.
fn fault_of(
    alloc: Global,
    id: &EntityId,
    entry: &MarkEntry,
) -> Result<Option<&'static [u8]>, Memory>
    ensures { IfOk result (λ fault. option_copied fault ≡ fault_of id.now entry.now (mark_of entry.now.text)) }
{
    match mark_of(alloc, entry.text.as_slice())? {
        None => Ok(Some(b"Form")),
        Some(mark) => {
            let fault = names_fault(id, entry, &mark);
            drop(mark);
            Ok(fault)
        }
    }
}

fn names_fault(id: &EntityId, entry: &MarkEntry, mark: &Mark) -> Option<&'static [u8]>
    ensures { option_copied result ≡ fault_of id.now entry.now (Some mark.now) }
{
    if mark.sub.text() == id.text() && mark.mark_type.as_slice() == entry.mark_type.as_slice() {
        None
    } else {
        Some(b"Names")
    }
}

// The trust mark that a text is.
#[tactic(auto, unfolding(trust_mark::specs::Marks::mark_of))]
fn mark_of(alloc: Global, text: &[u8]) -> Result<Option<Mark>, Memory>
    ensures { IfOk result (λ mark. mark ≡ mark_of text.now) }
{
    let compact = match split(alloc, text) {
        Ok(compact) => compact,
        Err(FormFault::Memory) => return Err(Memory),
        Err(_) => return Ok(None),
    };
    let read = Mark::read(alloc, &compact);
    drop(compact);
    match read {
        Ok(mark) => Ok(Some(mark)),
        Err(MarkFault::Memory) => Err(Memory),
        Err(_) => Ok(None),
    }
}

/// Appends a line for each mark.
pub(crate) fn append_marks(
    alloc: Global,
    out: &mut Text,
    entries: &[MarkEntry],
) -> Result<(), Memory>
    ensures { OnOk result (out.new ≡ out.old ++ flat_map mark_line entries.now) }
{
    for entry in entries {
        append_mark(alloc, out, entry)?;
    }
    Ok(())
}

fn append_mark(alloc: Global, out: &mut Text, entry: &MarkEntry) -> Result<(), Memory>
    ensures { OnOk result (out.new ≡ out.old ++ mark_line entry.now) }
{
    match mark_of(alloc, entry.text.as_slice())? {
        None => Ok(()),
        Some(mark) => {
            let appended = append_mark_line(alloc, out, entry, &mark);
            drop(mark);
            appended
        }
    }
}

fn append_mark_line(
    alloc: Global,
    out: &mut Text,
    entry: &MarkEntry,
    mark: &Mark,
) -> Result<(), Memory>
    ensures { OnOk result (out.new ≡ out.old ++ line (codes "mark ") (mark_words entry.now mark.now ++ end_words mark.now.exp)) }
{
    out.append(b"mark ")?;
    append_words(alloc, out, entry, mark)?;
    append_end_words(alloc, out, mark.exp)?;
    out.push(b'\n')
}

// The type of the mark, and who issued it.
fn append_words(alloc: Global, out: &mut Text, entry: &MarkEntry, mark: &Mark) -> Result<(), Memory>
    ensures { OnOk result (out.new ≡ out.old ++ mark_words entry.now mark.now) }
{
    let typ = string(alloc, entry.mark_type.as_slice())?;
    out.append(typ.as_slice())?;
    out.append(b" by ")?;
    out.append(mark.iss.text())
}

fn append_end_words(alloc: Global, out: &mut Text, exp: Option<u64>) -> Result<(), Memory>
    ensures { OnOk result (out.new ≡ out.old ++ end_words exp) }
{
    match exp {
        Some(exp) => {
            out.append(b" until ")?;
            append_moment(alloc, out, exp)
        }
        None => out.append(b" without an end"),
    }
}

/// Appends a line for each mark that has ended at the moment or ends soon.
pub(crate) fn append_mark_ends(
    alloc: Global,
    out: &mut Text,
    moment: u64,
    entries: &[MarkEntry],
) -> Result<(), Memory>
    requires { moment < moment_limit }
    ensures { OnOk result (out.new ≡ out.old ++ flat_map (mark_end moment) entries.now) }
{
    for entry in entries {
        append_mark_end(alloc, out, moment, entry)?;
    }
    Ok(())
}

fn append_mark_end(
    alloc: Global,
    out: &mut Text,
    moment: u64,
    entry: &MarkEntry,
) -> Result<(), Memory>
    requires { moment < moment_limit }
    ensures { OnOk result (out.new ≡ out.old ++ mark_end moment entry.now) }
{
    match mark_of(alloc, entry.text.as_slice())? {
        None => Ok(()),
        Some(mark) => {
            let appended = append_end_of(alloc, out, moment, entry, &mark);
            drop(mark);
            appended
        }
    }
}

fn append_end_of(
    alloc: Global,
    out: &mut Text,
    moment: u64,
    entry: &MarkEntry,
    mark: &Mark,
) -> Result<(), Memory>
    requires { moment < moment_limit }
    ensures { OnOk result (out.new ≡ out.old ++ mark_end_at moment entry.now mark.now mark.now.exp) }
{
    let Some(exp) = mark.exp else {
        return Ok(());
    };
    let mut name = Text::of(alloc, b"mark ")?;
    append_words(alloc, &mut name, entry, mark)?;
    append_end(alloc, out, moment, name.as_slice(), exp)
}
