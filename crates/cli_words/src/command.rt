// Commands that read, write and end.

ghost use Rattle.std.specs.Prelude.{◌≡◌, IfOk, codes};
ghost use Rattle.std.specs.Option.{option_and_then};
ghost use Rattle.cli_words.specs.TextTypes.{type_of};
ghost use Rattle.cli_words.specs.declared.command.Command.TheVariants.{Check};
ghost use Rattle.cli_words.specs.Options.{option_in};
ghost use Rattle.cli_words.specs.Commands.{verify_of, keygen_of, issue_of, rotate_of, check_of, flag_of};

use crate::act::{Act, read_act};
use crate::algorithm::alg_in;
use crate::moment::Moment;
use crate::options::{count_in, moment_in, option_in};
use crate::text_type::TextType;
use base64url::decode_32;
use entity_id::EntityId;
use fed_base::{Alg, Duplicate, Memory, Text};
use std::alloc::Global;

/// The most workers that sign one text.
pub const WORKERS: u64 = 16;

/// What is to be read, written and kept.
#[derive(Drop)]
pub enum Command {
    /// `verify PUB`: check one entity configuration under this public key.
    Verify([u8; 32]),
    /// `keygen --ring FILE --at T --exp T [--alg ALG]`: make a ring file of one key of this algorithm, for these moments.
    Keygen {
        ring_file: Text,
        /// Small where none is named.
        alg: Alg,
        at: Moment,
        exp: Moment,
    },
    /// `issue --ring FILE --typ TYP [--workers W]`: seal claims as a text of that type by the signer of a ring file, whose signature so
    /// many workers make.
    Issue {
        ring_file: Text,
        typ: TextType,
        /// 1 to 16; 1 where no number is given.
        workers: u64,
    },
    /// `rotate --ring FILE --act ACT ..`: make a change of the ring of a ring file.
    Rotate {
        ring_file: Text,
        act: Act,
    },
    /// `check --anchor ID --keys FILE [--at T]`: check a chain for a trust anchor, its keys, and a moment.
    Check {
        anchor: EntityId,
        keys_file: Text,
        at: Option<Moment>,
    },
    /// `--help`, alone.
    Help,
    /// `--version`, alone.
    Version,
    /// The words of no command.
    Faulty,
}

/// The flag, which stands alone.
#[tactic(auto, unfolding(crate::specs::Commands::flag_of))]
pub(crate) fn read_flag(verb: &[u8], rest: &[Text]) -> Command
    ensures { result ≡ flag_of verb.now rest.now }
{
    if !rest.is_empty() {
        Command::Faulty
    } else if verb == b"--help".as_slice() {
        Command::Help
    } else if verb == b"--version".as_slice() {
        Command::Version
    } else {
        Command::Faulty
    }
}

/// The command behind `verify`.
#[tactic(auto, unfolding(crate::specs::Commands::verify_of))]
pub(crate) fn read_verify(rest: &[Text]) -> Command
    ensures { result ≡ verify_of rest.now }
{
    let [word] = rest else {
        return Command::Faulty;
    };
    match decode_32(word.as_slice()) {
        Some(key) => Command::Verify(key),
        None => Command::Faulty,
    }
}

/// The command behind `keygen`.
#[tactic(auto, unfolding(crate::specs::Commands::keygen_of))]
pub(crate) fn read_keygen(alloc: Global, rest: &[Text]) -> Result<Command, Memory>
    ensures { IfOk result (λ c. c ≡ keygen_of rest.now) }
{
    let alg = alg_in(rest);
    if rest.len() != 6 && (rest.len() != 8 || alg.is_none()) {
        return Ok(Command::Faulty);
    }
    match (
        option_in(rest, b"--ring"),
        moment_in(rest, b"--at"),
        moment_in(rest, b"--exp"),
    ) {
        (Some(ring_file), Some(at), Some(exp)) => Ok(Command::Keygen {
            ring_file: ring_file.copy(alloc)?,
            alg: alg.unwrap_or(Alg::Small),
            at,
            exp,
        }),
        _ => Ok(Command::Faulty),
    }
}

/// The command behind `issue`.
#[tactic(auto, unfolding(crate::specs::Commands::issue_of))]
pub(crate) fn read_issue(alloc: Global, rest: &[Text]) -> Result<Command, Memory>
    ensures { IfOk result (λ c. c ≡ issue_of rest.now) }
{
    let workers = count_in(rest, b"--workers", WORKERS);
    if rest.len() != 4 && (rest.len() != 6 || workers.is_none()) {
        return Ok(Command::Faulty);
    }
    match (option_in(rest, b"--ring"), type_in(rest)) {
        (Some(ring_file), Some(typ)) => Ok(Command::Issue {
            ring_file: ring_file.copy(alloc)?,
            typ,
            workers: workers.unwrap_or(1),
        }),
        _ => Ok(Command::Faulty),
    }
}

// The type of text behind `--typ`.
fn type_in(rest: &[Text]) -> Option<TextType>
    ensures { result ≡ option_and_then type_of (option_in (codes "--typ") rest.now) }
{
    match option_in(rest, b"--typ") {
        Some(word) => TextType::of(word.as_slice()),
        None => None,
    }
}

/// The command behind `rotate`.
#[tactic(auto, unfolding(crate::specs::Commands::rotate_of))]
pub(crate) fn read_rotate(alloc: Global, rest: &[Text]) -> Result<Command, Memory>
    ensures { IfOk result (λ c. c ≡ rotate_of rest.now) }
{
    let Some(ring_file) = option_in(rest, b"--ring") else {
        return Ok(Command::Faulty);
    };
    match read_act(alloc, rest)? {
        Some(act) => Ok(Command::Rotate {
            ring_file: ring_file.copy(alloc)?,
            act,
        }),
        None => Ok(Command::Faulty),
    }
}

/// The command behind `check`.
#[tactic(auto, unfolding(crate::specs::Commands::check_of))]
pub(crate) fn read_check(alloc: Global, rest: &[Text]) -> Result<Command, Memory>
    ensures { IfOk result (λ c. c ≡ check_of rest.now) }
{
    let at = moment_in(rest, b"--at");
    if rest.len() != 4 && (rest.len() != 6 || at.is_none()) {
        return Ok(Command::Faulty);
    }
    let (Some(anchor), Some(keys_file)) = (option_in(rest, b"--anchor"), option_in(rest, b"--keys"))
    else {
        return Ok(Command::Faulty);
    };
    match EntityId::of(alloc, anchor.as_slice())? {
        Some(anchor) => check_call(alloc, anchor, keys_file, at),
        None => Ok(Command::Faulty),
    }
}

fn check_call(
    alloc: Global,
    anchor: EntityId,
    keys_file: &Text,
    at: Option<Moment>,
) -> Result<Command, Memory>
    ensures { IfOk result (λ c. c ≡ Check anchor keys_file.now at) }
{
    match keys_file.copy(alloc) {
        Ok(keys_file) => Ok(Command::Check {
            anchor,
            keys_file,
            at,
        }),
        Err(memory) => {
            drop(anchor);
            Err(memory)
        }
    }
}
