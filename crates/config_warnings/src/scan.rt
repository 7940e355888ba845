// Members that stand twice in one object.

ghost use Rattle.std.specs.Prelude.{◌≡◌, ◌++◌, ◌∷◌, [], IfOk, OnOk, bytes_eq, flat_map};
ghost use Rattle.std.specs.List.{list_any};
ghost use Rattle.config_warnings.specs.Twice.{closed, inside, last_of, named, of_text, outside, put, scanned, start, step, twice_in, warn_twice, with_object};

use crate::warning::{Kind, Warning, warn};
use fed_base::{Duplicate, Memory, Seq, Text};
use std::alloc::Global;

/// What was read of a text so far, byte by byte.
#[derive(Drop)]
pub(crate) struct Scan {
    /// The names of the members of each object that is open, the innermost object last.
    pub(crate) objects: Seq<Seq<Text>>,
    /// Whether the next byte stands in a string.
    pub(crate) quoted: bool,
    /// Whether a reverse solidus stands before it there.
    pub(crate) escaped: bool,
    /// The last string, as it is written.
    pub(crate) word: Text,
    /// The names that stand twice.
    pub(crate) twice: Seq<Text>,
}

/// Warns of the members that stand twice in an object of the text.
pub(crate) fn of_text(alloc: Global, out: &mut Seq<Warning>, text: &[u8]) -> Result<(), Memory>
    ensures { OnOk result (out.new ≡ out.old ++ of_text text.now) }
{
    let names = twice_in(alloc, text)?;
    warn_twice(alloc, out, names.as_slice())
}

fn warn_twice(alloc: Global, out: &mut Seq<Warning>, names: &[Text]) -> Result<(), Memory>
    ensures { OnOk result (out.new ≡ out.old ++ flat_map warn_twice names.now) }
{
    for name in names {
        warn(alloc, out, Kind::Twice, b"", name.as_slice())?;
    }
    Ok(())
}

// The names that stand twice.
#[tactic(auto, unfolding(crate::specs::Twice::twice_in))]
fn twice_in(alloc: Global, text: &[u8]) -> Result<Seq<Text>, Memory>
    ensures { IfOk result (λ names. names ≡ twice_in text.now) }
{
    let scan = scanned(alloc, text)?;
    Ok(scan.twice)
}

#[tactic(auto, unfolding(crate::specs::Twice::scanned))]
fn scanned(alloc: Global, text: &[u8]) -> Result<Scan, Memory>
    ensures { IfOk result (λ scan. scan ≡ scanned start text.now) }
{
    let mut scan = Scan {
        objects: Seq::new(alloc),
        quoted: false,
        escaped: false,
        word: Text::new(alloc),
        twice: Seq::new(alloc),
    };
    for byte in text {
        step(alloc, &mut scan, *byte)?;
    }
    Ok(scan)
}

#[tactic(auto, unfolding(crate::specs::Twice::step))]
fn step(alloc: Global, scan: &mut Scan, byte: u8) -> Result<(), Memory>
    ensures { OnOk result (scan.new ≡ step scan.old byte) }
{
    if scan.quoted {
        inside(scan, byte)
    } else {
        outside(alloc, scan, byte)
    }
}

// A byte of a string.
fn inside(scan: &mut Scan, byte: u8) -> Result<(), Memory>
    ensures { OnOk result (scan.new ≡ inside scan.old byte) }
{
    if !scan.escaped && byte == b'"' {
        scan.quoted = false;
        Ok(())
    } else {
        scan.escaped = !scan.escaped && byte == b'\\';
        scan.word.push(byte)
    }
}

// A byte of no string.
fn outside(alloc: Global, scan: &mut Scan, byte: u8) -> Result<(), Memory>
    ensures { OnOk result (scan.new ≡ outside scan.old byte) }
{
    if byte == b'"' {
        scan.quoted = true;
        scan.word = Text::new(alloc);
        Ok(())
    } else if byte == b'{' {
        scan.objects.push(Seq::new(alloc))
    } else if byte == b'}' {
        drop(innermost(scan));
        Ok(())
    } else if byte == b':' {
        named(alloc, scan)
    } else {
        Ok(())
    }
}

// The last string is the name of a member of the innermost object.
fn named(alloc: Global, scan: &mut Scan) -> Result<(), Memory>
    ensures { OnOk result (scan.new ≡ named scan.old) }
{
    match innermost(scan) {
        Some(names) => put(alloc, scan, names),
        None => Ok(()),
    }
}

// The names of the innermost object, which is taken away.
fn innermost(scan: &mut Scan) -> Option<Seq<Text>>
    ensures names { result ≡ last_of scan.old.objects }
    ensures left { scan.new ≡ closed scan.old }
{
    scan.objects.pop()
}

// Puts the last string to the names of an object, and that object to the others.
fn put(alloc: Global, scan: &mut Scan, names: Seq<Text>) -> Result<(), Memory>
    ensures { OnOk result (scan.new ≡ put scan.old names) }
{
    let word = scan.word.copy(alloc)?;
    if is_among(names.as_slice(), word.as_slice()) {
        scan.twice.push(word)?;
        scan.objects.push(names)
    } else {
        put_new(scan, names, word)
    }
}

fn put_new(scan: &mut Scan, mut names: Seq<Text>, word: Text) -> Result<(), Memory>
    ensures { OnOk result (scan.new ≡ with_object scan.old (names ++ word ∷ [])) }
{
    names.push(word)?;
    scan.objects.push(names)
}

fn is_among(names: &[Text], word: &[u8]) -> bool
    ensures { result ≡ list_any (λ name. bytes_eq name word.now) names.now }
{
    names.iter().any(|name| name.as_slice() == word)
}
