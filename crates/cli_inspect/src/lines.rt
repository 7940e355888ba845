// The lines that tell a verdict on a reply.

ghost use Rattle.std.specs.Prelude.{◌≡◌, ◌≤◌, ◌<◌, ◌++◌, length, IfOk, OnOk};
ghost use Rattle.fed_json.specs.Forms.{IsWhole};
ghost use Rattle.reply_check.specs.Verdicts.{CanBeTold};
ghost use Rattle.reply_check.specs.declared.verdict.ReplyVerdict.TheVariants.{Refused, Sound};
ghost use Rattle.cli_inspect.specs.Reports.{flaw_word, lines_of, mark_word, refusal_text, status_of, unchecked_line, unchecked_lines};

use cli_commands::{append_number, append_reason, append_tree};
use fed_ports::{Memory, Text};
use reply_check::{Claimed, Flaw, ReplyReason, ReplyVerdict};
use std::alloc::Global;
use trust_mark::MarkReason;

/// The exit status: 0 for a sound reply, 1 for a refused one.
pub(crate) fn status(verdict: &ReplyVerdict) -> u8
    ensures status { result ≡ status_of verdict.now }
    ensures small { result ≤ 1 }
{
    match verdict {
        ReplyVerdict::Sound { .. } => 0,
        ReplyVerdict::Refused(_) => 1,
    }
}

/// The lines, each with its line end.
pub(crate) fn verdict_lines(alloc: Global, verdict: &ReplyVerdict) -> Result<Text, Memory>
    requires { CanBeTold verdict.now }
    ensures { IfOk result (λ text. text ≡ lines_of verdict.now) }
{
    match verdict {
        ReplyVerdict::Sound { claimed, checked } => sound_lines(alloc, claimed, checked.as_slice()),
        ReplyVerdict::Refused(reason) => refusal_line(alloc, reason),
    }
}

// Those of a sound reply.
fn sound_lines(alloc: Global, claimed: &Claimed, checked: &[bool]) -> Result<Text, Memory>
    requires { IsWhole claimed.now.said.metadata }
    ensures { IfOk result (λ text. text ≡ lines_of (Sound claimed.now checked.now)) }
{
    let mut lines = Text::of(alloc, b"valid ")?;
    lines.append(claimed.said.sub.text())?;
    lines.push(b' ')?;
    append_number(alloc, &mut lines, claimed.said.exp)?;
    lines.push(b'\n')?;
    append_tree(alloc, &mut lines, &claimed.said.metadata)?;
    lines.push(b'\n')?;
    append_unchecked(alloc, &mut lines, checked)?;
    Ok(lines)
}

// The lines of the marks whose signatures weren't checked.
fn append_unchecked(alloc: Global, lines: &mut Text, checked: &[bool]) -> Result<(), Memory>
    ensures { OnOk result (lines.new ≡ lines.old ++ unchecked_lines checked.now (length checked.now)) }
{
    for place in 0..checked.len() {
        append_mark(alloc, lines, checked, place)?;
    }
    Ok(())
}

// That of the mark at the place.
fn append_mark(
    alloc: Global,
    lines: &mut Text,
    checked: &[bool],
    place: usize,
) -> Result<(), Memory>
    requires { place < length checked.now }
    ensures { OnOk result (lines.new ≡ lines.old ++ unchecked_line checked.now place) }
{
    if checked[place] {
        return Ok(());
    }
    lines.append(b"unchecked ")?;
    append_number(alloc, lines, place as u64)?;
    lines.push(b'\n')
}

// That of a refused reply.
fn refusal_line(alloc: Global, reason: &ReplyReason) -> Result<Text, Memory>
    requires { CanBeTold (Refused reason.now) }
    ensures { IfOk result (λ text. text ≡ lines_of (Refused reason.now)) }
{
    let mut line = Text::of(alloc, b"refused ")?;
    append_refusal(alloc, &mut line, reason)?;
    line.push(b'\n')?;
    Ok(line)
}

fn append_refusal(alloc: Global, line: &mut Text, reason: &ReplyReason) -> Result<(), Memory>
    requires { CanBeTold (Refused reason.now) }
    ensures { OnOk result (line.new ≡ line.old ++ refusal_text reason.now) }
{
    match reason {
        ReplyReason::Form => line.append(b"Form"),
        ReplyReason::Signature => line.append(b"Signature"),
        ReplyReason::Chain { place, reason } => {
            line.append(b"Chain ")?;
            append_number(alloc, line, *place)?;
            line.push(b' ')?;
            append_reason(alloc, line, reason)
        }
        ReplyReason::Subject => line.append(b"Subject"),
        ReplyReason::Metadata => line.append(b"Metadata"),
        ReplyReason::End => line.append(b"End"),
        ReplyReason::Mark { place, flaw } => {
            line.append(b"Mark ")?;
            append_number(alloc, line, *place)?;
            line.push(b' ')?;
            line.append(flaw_word(*flaw))
        }
        ReplyReason::Times => line.append(b"Times"),
    }
}

// What is wrong with a mark.
fn flaw_word(flaw: Flaw) -> &'static [u8]
    ensures { result.now ≡ flaw_word flaw }
{
    match flaw {
        Flaw::Bad(reason) => mark_word(reason),
        Flaw::Late => b"Late",
    }
}

fn mark_word(reason: MarkReason) -> &'static [u8]
    ensures { result.now ≡ mark_word reason }
{
    match reason {
        MarkReason::Form => b"Form",
        MarkReason::Subject => b"Subject",
        MarkReason::Kind => b"Kind",
        MarkReason::Unlisted => b"Unlisted",
        MarkReason::Issuer => b"Issuer",
        MarkReason::Times => b"Times",
        MarkReason::Signature => b"Signature",
        MarkReason::Delegation => b"Delegation",
    }
}
