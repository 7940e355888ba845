// Commands that show something, and change nothing.

ghost use Rattle.std.specs.Prelude.{◌≡◌, ◌≤◌, IfOk};
ghost use Rattle.std.specs.Option.{option_copied};
ghost use Rattle.cli_words.specs.Inspections.{asked_in, config_of, help_of, public_of, reply_check_of, show_of, words_for};

use crate::moment::Moment;
use crate::options::{moment_in, option_in, says_yes};
use cli_help::Verb;
use entity_id::EntityId;
use fed_base::{Duplicate, Memory, Text};
use std::alloc::Global;

/// What is to be shown.
#[derive(Drop)]
pub enum Inspection {
    /// `public --ring FILE [--kid KID]`: the live keys of a ring file, or the key of this name.
    Public {
        ring_file: Text,
        kid: Option<Text>,
    },
    /// `show [--claims yes]`: the signed text, the chain or the key set in the input.
    Show {
        /// Of a signed text the claims alone, as JSON.
        claims: bool,
    },
    /// `check-config --config FILE [--at T] [--strict yes]`: the node of a configuration file, for a moment.
    Config {
        config_file: Text,
        at: Option<Moment>,
        /// What is warned of is refused.
        strict: bool,
    },
    /// `help COMMAND`: how a command is called.
    Help(Verb),
    /// `check-reply --keys FILE --anchor ID --anchor-keys FILE [--at T]`: whether the reply in the input can be acted on, for a moment.
    Reply(ReplyAsked),
}

/// By what a resolver's reply is checked.
#[derive(Drop)]
pub struct ReplyAsked {
    /// The file of the resolver's keys.
    pub keys_file: Text,
    /// The trust anchor.
    pub anchor: EntityId,
    /// The file of the anchor's keys.
    pub anchor_keys_file: Text,
    /// The moment, or `None` for that of the clock.
    pub at: Option<Moment>,
}

/// What is to be shown behind `public`, or `None` where the words aren't of its form.
#[tactic(auto, unfolding(crate::specs::Inspections::public_of))]
pub(crate) fn read_public(alloc: Global, rest: &[Text]) -> Result<Option<Inspection>, Memory>
    ensures { IfOk result (λ inspection. inspection ≡ public_of rest.now) }
{
    let kid = option_in(rest, b"--kid");
    if rest.len() != 2 && (rest.len() != 4 || kid.is_none()) {
        return Ok(None);
    }
    match option_in(rest, b"--ring") {
        Some(ring_file) => Ok(Some(Inspection::Public {
            ring_file: ring_file.copy(alloc)?,
            kid: copied(alloc, kid)?,
        })),
        None => Ok(None),
    }
}

// A copy of the value of an option that may be absent.
fn copied(alloc: Global, value: Option<&Text>) -> Result<Option<Text>, Memory>
    ensures { IfOk result (λ copy. copy ≡ option_copied value.entry) }
{
    match value {
        Some(value) => Ok(Some(value.copy(alloc)?)),
        None => Ok(None),
    }
}

/// The same behind `show`.
#[tactic(auto, unfolding(crate::specs::Inspections::show_of))]
pub(crate) fn read_show(rest: &[Text]) -> Option<Inspection>
    ensures { result ≡ show_of rest.now }
{
    let claims = says_yes(rest, b"--claims");
    if rest.len() == words_for(claims) {
        Some(Inspection::Show { claims })
    } else {
        None
    }
}

/// The same behind `check-config`.
#[tactic(auto, unfolding(crate::specs::Inspections::config_of))]
pub(crate) fn read_config(alloc: Global, rest: &[Text]) -> Result<Option<Inspection>, Memory>
    ensures { IfOk result (λ inspection. inspection ≡ config_of rest.now) }
{
    let at = moment_in(rest, b"--at");
    let strict = says_yes(rest, b"--strict");
    if rest.len() != 2 + words_for(at.is_some()) + words_for(strict) {
        return Ok(None);
    }
    match option_in(rest, b"--config") {
        Some(config_file) => Ok(Some(Inspection::Config {
            config_file: config_file.copy(alloc)?,
            at,
            strict,
        })),
        None => Ok(None),
    }
}

// How many words an option that may be absent has.
fn words_for(there: bool) -> usize
    ensures words { result ≡ words_for there }
    ensures few { result ≤ 2 }
{
    if there { 2 } else { 0 }
}

/// The same behind `check-reply`.
#[tactic(auto, unfolding(crate::specs::Inspections::reply_check_of))]
pub(crate) fn read_reply_check(alloc: Global, rest: &[Text]) -> Result<Option<Inspection>, Memory>
    ensures { IfOk result (λ inspection. inspection ≡ reply_check_of rest.now) }
{
    let at = moment_in(rest, b"--at");
    if rest.len() != 6 && (rest.len() != 8 || at.is_none()) {
        return Ok(None);
    }
    match read_asked(alloc, rest)? {
        Some(asked) => Ok(Some(Inspection::Reply(asked))),
        None => Ok(None),
    }
}

// By what a reply is checked.
#[tactic(auto, unfolding(crate::specs::Inspections::asked_in))]
fn read_asked(alloc: Global, rest: &[Text]) -> Result<Option<ReplyAsked>, Memory>
    ensures { IfOk result (λ asked. asked ≡ asked_in rest.now) }
{
    let (Some(keys_file), Some(anchor_keys_file), Some(anchor)) = (
        option_in(rest, b"--keys"),
        option_in(rest, b"--anchor-keys"),
        option_in(rest, b"--anchor"),
    ) else {
        return Ok(None);
    };
    let Some(anchor) = EntityId::of(alloc, anchor.as_slice())? else {
        return Ok(None);
    };
    Ok(Some(ReplyAsked {
        keys_file: keys_file.copy(alloc)?,
        anchor,
        anchor_keys_file: anchor_keys_file.copy(alloc)?,
        at: moment_in(rest, b"--at"),
    }))
}

/// The same behind `help`.
#[tactic(auto, unfolding(crate::specs::Inspections::help_of))]
pub(crate) fn read_help(rest: &[Text]) -> Option<Inspection>
    ensures { result ≡ help_of rest.now }
{
    let [word] = rest else {
        return None;
    };
    match Verb::of_word(word.as_slice()) {
        Some(verb) => Some(Inspection::Help(verb)),
        None => None,
    }
}
