// The keys of a node.

ghost use Rattle.std.specs.Prelude.{◌≡◌, ◌<◌, ◌++◌, flat_map, codes, OnOk};
ghost use Rattle.fed_base.specs.Moments.{moment_limit};
ghost use Rattle.config_summary.specs.Summaries.{key_end, key_line, state_words};

use crate::ends::append_end;
use fed_base::{Memory, Text};
use jws_form::algorithm_name;
use key_ring::{KeyState, KeyTerm};
use plain_notes::append_moment;
use std::alloc::Global;

/// Appends a line for each key.
pub(crate) fn append_keys(alloc: Global, out: &mut Text, keys: &[KeyTerm]) -> Result<(), Memory>
    ensures { OnOk result (out.new ≡ out.old ++ flat_map key_line keys.now) }
{
    for key in keys {
        append_key(alloc, out, key)?;
    }
    Ok(())
}

fn append_key(alloc: Global, out: &mut Text, key: &KeyTerm) -> Result<(), Memory>
    ensures { OnOk result (out.new ≡ out.old ++ key_line key.now) }
{
    out.append(b"key ")?;
    out.append(key.kid.as_slice())?;
    out.push(b' ')?;
    out.append(algorithm_name(key.alg))?;
    append_state(alloc, out, key.exp, key.state)?;
    out.push(b'\n')
}

// What a key is for, and until when or since when.
fn append_state(alloc: Global, out: &mut Text, exp: u64, state: KeyState) -> Result<(), Memory>
    ensures { OnOk result (out.new ≡ out.old ++ state_words exp state) }
{
    match state {
        KeyState::Live => {
            out.append(b" live until ")?;
            append_moment(alloc, out, exp)
        }
        KeyState::Retired => {
            out.append(b" retired until ")?;
            append_moment(alloc, out, exp)
        }
        KeyState::Revoked { at, reason } => {
            out.append(b" revoked since ")?;
            append_moment(alloc, out, at)?;
            out.append(b", ")?;
            out.append(reason.word())
        }
    }
}

/// Appends a line for each live key that has ended at the moment or ends soon.
pub(crate) fn append_key_ends(
    alloc: Global,
    out: &mut Text,
    moment: u64,
    keys: &[KeyTerm],
) -> Result<(), Memory>
    requires { moment < moment_limit }
    ensures { OnOk result (out.new ≡ out.old ++ flat_map (key_end moment) keys.now) }
{
    for key in keys {
        append_key_end(alloc, out, moment, key)?;
    }
    Ok(())
}

fn append_key_end(alloc: Global, out: &mut Text, moment: u64, key: &KeyTerm) -> Result<(), Memory>
    requires { moment < moment_limit }
    ensures { OnOk result (out.new ≡ out.old ++ key_end moment key.now) }
{
    match key.state {
        KeyState::Live => {
            let mut name = Text::of(alloc, b"key ")?;
            name.append(key.kid.as_slice())?;
            append_end(alloc, out, moment, name.as_slice(), key.exp)
        }
        KeyState::Retired | KeyState::Revoked { .. } => Ok(()),
    }
}
