// What ends soon.

ghost use Rattle.std.specs.Prelude.{◌≡◌, ◌<◌, ◌++◌, ◌∷◌, [], codes, OnOk};
ghost use Rattle.fed_base.specs.Moments.{moment_limit};
ghost use Rattle.plain_notes.specs.Moments.{moment_text};
ghost use Rattle.config_summary.specs.Ends.{end_line};

use fed_base::{Memory, Text};
use plain_notes::append_moment;
use std::alloc::Global;

// 30 days, in seconds.
const SOON: u64 = 2_592_000;

/// Appends a line where the thing of that name has ended at the moment, or ends within 30 days of it.
pub(crate) fn append_end(
    alloc: Global,
    out: &mut Text,
    moment: u64,
    name: &[u8],
    exp: u64,
) -> Result<(), Memory>
    requires { moment < moment_limit }
    ensures { OnOk result (out.new ≡ out.old ++ end_line moment name.now exp) }
{
    if exp <= moment {
        append_ending(alloc, out, b"ended: ", name, exp)
    } else if exp <= moment + SOON {
        append_ending(alloc, out, b"ends soon: ", name, exp)
    } else {
        Ok(())
    }
}

fn append_ending(
    alloc: Global,
    out: &mut Text,
    words: &[u8],
    name: &[u8],
    exp: u64,
) -> Result<(), Memory>
    ensures { OnOk result (out.new ≡ out.old ++ (words.now ++ (name.now ++ (codes " " ++ (moment_text exp ++ 10 ∷ []))))) }
{
    out.append(words)?;
    out.append(name)?;
    out.push(b' ')?;
    append_moment(alloc, out, exp)?;
    out.push(b'\n')
}
