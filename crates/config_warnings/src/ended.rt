// A signer that has ended.

ghost use Rattle.std.specs.Prelude.{◌≡◌, ◌++◌, OnOk};
ghost use Rattle.config_warnings.specs.Warnings.{of_signer, signs};

use crate::warning::{Kind, Warning, warn};
use fed_base::{Memory, Seq};
use key_ring::{KeyState, KeyTerm};
use std::alloc::Global;

/// Warns where the first live key has ended at the moment.
pub(crate) fn of_signer(
    alloc: Global,
    out: &mut Seq<Warning>,
    moment: u64,
    keys: &[KeyTerm],
) -> Result<(), Memory>
    ensures { OnOk result (out.new ≡ out.old ++ of_signer moment keys.now) }
{
    match keys {
        [] => Ok(()),
        [key, rest @ ..] => if !signs(key.state) {
            of_signer(alloc, out, moment, rest)
        } else if key.exp <= moment {
            warn(alloc, out, Kind::Ended, b"ring", key.kid.as_slice())
        } else {
            Ok(())
        },
    }
}

fn signs(state: KeyState) -> bool
    ensures { result ≡ signs state }
{
    match state {
        KeyState::Live => true,
        KeyState::Retired | KeyState::Revoked { .. } => false,
    }
}
