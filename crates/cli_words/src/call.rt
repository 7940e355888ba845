// What the words of a command line ask for.

ghost use Rattle.std.specs.Prelude.{◌≡◌, IfOk};
ghost use Rattle.cli_words.specs.Calls.{call_by, call_of, registered, served, shown};

use crate::command::{
    Command, read_check, read_flag, read_issue, read_keygen, read_rotate, read_verify,
};
use crate::inspection::{
    Inspection, read_config, read_help, read_public, read_reply_check, read_show,
};
use crate::registration::{Registration, read_registration};
use crate::service::{Service, read_authority, read_rehearsal, read_resolve, read_resolver};
use cli_help::Verb;
use fed_base::{Memory, Text};
use std::alloc::Global;

/// What the words ask for.
#[derive(Drop)]
pub enum Call {
    /// A command, which reads, writes and ends. It is [`Command::Faulty`] where the words are of no call.
    Command(Command),
    /// To be shown something.
    Inspection(Inspection),
    /// Something over a network, or over one in memory.
    Service(Service),
    /// To register what the input has, over a network where its chain is to be found.
    Registration(Registration),
}

/// What the words after the program's name ask for.
#[tactic(auto, unfolding(crate::specs::Calls::call_of))]
pub fn read_call(alloc: Global, words: &[Text]) -> Result<Call, Memory>
    ensures { IfOk result (λ call. call ≡ call_of words.now) }
{
    let [word, rest @ ..] = words else {
        return Ok(Call::Command(Command::Faulty));
    };
    match Verb::of_word(word.as_slice()) {
        Some(verb) => read_behind(alloc, verb, rest),
        None => Ok(Call::Command(read_flag(word.as_slice(), rest))),
    }
}

// The call of that verb.
#[tactic(auto, unfolding(crate::specs::Calls::call_by))]
fn read_behind(alloc: Global, verb: Verb, rest: &[Text]) -> Result<Call, Memory>
    ensures { IfOk result (λ call. call ≡ call_by verb rest.now) }
{
    match verb {
        Verb::Verify => Ok(Call::Command(read_verify(rest))),
        Verb::Keygen => Ok(Call::Command(read_keygen(alloc, rest)?)),
        Verb::Issue => Ok(Call::Command(read_issue(alloc, rest)?)),
        Verb::Rotate => Ok(Call::Command(read_rotate(alloc, rest)?)),
        Verb::Check => Ok(Call::Command(read_check(alloc, rest)?)),
        Verb::Public => Ok(shown(read_public(alloc, rest)?)),
        Verb::Show => Ok(shown(read_show(rest))),
        Verb::CheckConfig => Ok(shown(read_config(alloc, rest)?)),
        Verb::CheckReply => Ok(shown(read_reply_check(alloc, rest)?)),
        Verb::Help => Ok(shown(read_help(rest))),
        Verb::Authority => Ok(served(read_authority(alloc, rest)?)),
        Verb::Resolver => Ok(served(read_resolver(alloc, rest)?)),
        Verb::Resolve => Ok(served(read_resolve(alloc, rest)?)),
        Verb::Rehearse => Ok(served(read_rehearsal(rest))),
        Verb::Register => Ok(registered(read_registration(alloc, rest)?)),
    }
}

fn shown(inspection: Option<Inspection>) -> Call
    ensures { result ≡ shown inspection }
{
    match inspection {
        Some(inspection) => Call::Inspection(inspection),
        None => Call::Command(Command::Faulty),
    }
}

fn served(service: Option<Service>) -> Call
    ensures { result ≡ served service }
{
    match service {
        Some(service) => Call::Service(service),
        None => Call::Command(Command::Faulty),
    }
}

fn registered(registration: Option<Registration>) -> Call
    ensures { result ≡ registered registration }
{
    match registration {
        Some(registration) => Call::Registration(registration),
        None => Call::Command(Command::Faulty),
    }
}
