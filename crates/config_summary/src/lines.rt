// Pieces of lines.

ghost use Rattle.std.specs.Prelude.{◌≡◌, ◌++◌, decimal, OnOk};
ghost use Rattle.config_summary.specs.Summaries.{line};

use fed_base::{Memory, Text};
use std::alloc::Global;

/// Appends words, and what stands behind them, on a line.
pub(crate) fn append_line(out: &mut Text, words: &[u8], what: &[u8]) -> Result<(), Memory>
    ensures { OnOk result (out.new ≡ out.old ++ line words.now what.now) }
{
    out.append(words)?;
    out.append(what)?;
    out.push(b'\n')
}

/// Appends a number.
pub(crate) fn append_number(alloc: Global, out: &mut Text, number: u64) -> Result<(), Memory>
    ensures { OnOk result (out.new ≡ out.old ++ decimal number) }
{
    let digits = format!(in alloc; "{number}")?;
    out.append(digits.as_bytes())
}
