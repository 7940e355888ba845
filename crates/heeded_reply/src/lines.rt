// What is written of a reply whose marks were asked about.

ghost use Rattle.std.specs.Prelude.{◌≡◌, ◌++◌, IfOk, OnOk};
ghost use Rattle.heeded_reply.specs.Lines.{mark_line, mark_lines, reply_lines, word_of};

use crate::reply::HeededReply;
use fed_base::{Memory, Seq, Text};
use mark_status::Tell;
use std::alloc::Global;

/// The reply's text on a line, and then a line for each of its marks: `mark`, its place among them from 0 on, and `active`, `unasked`,
/// `refused`, `useless` or `fault`.
#[tactic(auto, unfolding(crate::specs::Lines::reply_lines))]
pub fn reply_lines(alloc: Global, heeded: HeededReply) -> Result<Text, Memory>
    ensures { IfOk result (λ lines. lines ≡ reply_lines heeded) }
{
    let HeededReply {
        text,
        marks,
        tells,
        arrivals: _,
    } = heeded;
    drop(marks);
    let mut lines = text;
    lines.push(b'\n')?;
    append_lines(alloc, &mut lines, &tells)?;
    Ok(lines)
}

fn append_lines(alloc: Global, lines: &mut Text, tells: &Seq<Tell>) -> Result<(), Memory>
    ensures { OnOk result (lines.new ≡ lines.old ++ mark_lines 0 tells.now) }
{
    for place in 0..tells.len() {
        let tell = &tells.as_slice()[place];
        append_line(alloc, lines, place, tell)?;
    }
    Ok(())
}

fn append_line(alloc: Global, lines: &mut Text, place: usize, tell: &Tell) -> Result<(), Memory>
    ensures { OnOk result (lines.new ≡ lines.old ++ mark_line place tell.now) }
{
    let number = format!(in alloc; "{place}")?;
    lines.append(b"mark ")?;
    lines.append(number.as_bytes())?;
    lines.push(b' ')?;
    lines.append(word_of(*tell))?;
    lines.push(b'\n')
}

// What is told of a mark, in a word.
fn word_of(tell: Tell) -> &'static [u8]
    ensures { result.now ≡ word_of tell }
{
    match tell {
        Tell::Active => b"active",
        Tell::Unasked => b"unasked",
        Tell::Refused(_) => b"refused",
        Tell::Useless => b"useless",
        Tell::Fault => b"fault",
    }
}
