// Pieces of lines.

ghost use Rattle.std.specs.Prelude.{◌≡◌, ◌++◌, ◌∷◌, [], decimal, IfOk, OnOk};
ghost use Rattle.plain_notes.specs.Strings.{string};
ghost use Rattle.cli_show.specs.Findings.{good, refused};
ghost use Rattle.cli_show.specs.Views.{unverified};

use crate::view::View;
use fed_base::{Memory, Text};
use plain_notes::string;
use std::alloc::Global;

/// What is found: these words on a line.
pub(crate) fn good(mut words: Text) -> Result<View, Memory>
    ensures { IfOk result (λ view. view ≡ good words) }
{
    words.push(b'\n')?;
    Ok(View {
        refused: false,
        text: words,
    })
}

/// The first reason against it, on a line.
pub(crate) fn refused(alloc: Global, reason: &[u8]) -> Result<View, Memory>
    ensures { IfOk result (λ view. view ≡ refused reason.now) }
{
    let mut text = Text::of(alloc, b"refused ")?;
    text.append(reason)?;
    text.push(b'\n')?;
    Ok(View {
        refused: true,
        text,
    })
}

/// Appends words, and a value as it stands behind them.
pub(crate) fn append_plain(line: &mut Text, words: &[u8], value: &[u8]) -> Result<(), Memory>
    ensures { OnOk result (line.new ≡ line.old ++ (words.now ++ value.now)) }
{
    line.append(words)?;
    line.append(value)
}

/// Appends words, and a value between quotation marks behind them.
pub(crate) fn append_quoted(
    alloc: Global,
    line: &mut Text,
    words: &[u8],
    value: &[u8],
) -> Result<(), Memory>
    ensures { OnOk result (line.new ≡ line.old ++ (words.now ++ string value.now)) }
{
    let quoted = string(alloc, value)?;
    append_plain(line, words, quoted.as_slice())
}

/// Appends words, and a number behind them.
pub(crate) fn append_counted(
    alloc: Global,
    line: &mut Text,
    words: &[u8],
    number: u64,
) -> Result<(), Memory>
    ensures { OnOk result (line.new ≡ line.old ++ (words.now ++ decimal number)) }
{
    let digits = format!(in alloc; "{number}")?;
    append_plain(line, words, digits.as_bytes())
}

/// Appends that nothing was verified.
pub(crate) fn append_unverified(lines: &mut Text) -> Result<(), Memory>
    ensures { OnOk result (lines.new ≡ unverified lines.old) }
{
    lines.append(b"nothing was verified\n")
}
