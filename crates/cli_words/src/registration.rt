// The words of `register`.

ghost use Rattle.std.specs.Prelude.{◌≡◌, IfOk};
ghost use Rattle.cli_words.specs.Registrations.{registration_in};

use crate::options::option_in;
use entity_id::EntityId;
use fed_base::{Duplicate, Memory, Text};
use std::alloc::Global;

/// `register --config FILE --anchor ID`: register the relying party that is posted in the input, up to a trust anchor, as the node of a
/// configuration file.
#[derive(Drop)]
pub struct Registration {
    pub config_file: Text,
    pub anchor: EntityId,
}

/// What is asked for behind `register`, or `None` where the words aren't of its form.
#[tactic(auto, unfolding(crate::specs::Registrations::registration_in))]
pub(crate) fn read_registration(
    alloc: Global,
    rest: &[Text],
) -> Result<Option<Registration>, Memory>
    ensures { IfOk result (λ registration. registration ≡ registration_in rest.now) }
{
    if rest.len() != 4 {
        return Ok(None);
    }
    let (Some(config_file), Some(anchor)) = (
        option_in(rest, b"--config"),
        option_in(rest, b"--anchor"),
    ) else {
        return Ok(None);
    };
    match EntityId::of(alloc, anchor.as_slice())? {
        Some(anchor) => Ok(Some(registration_of(alloc, config_file, anchor)?)),
        None => Ok(None),
    }
}

fn registration_of(
    alloc: Global,
    config_file: &Text,
    anchor: EntityId,
) -> Result<Registration, Memory>
    ensures { IfOk result (λ registration. registration ≡ record { config_file = config_file.now; anchor = anchor }) }
{
    match config_file.copy(alloc) {
        Ok(config_file) => Ok(Registration {
            config_file,
            anchor,
        }),
        Err(memory) => {
            drop(anchor);
            Err(memory)
        }
    }
}
