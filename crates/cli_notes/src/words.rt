// What is wrong with the words of a command line.

use crate::moment_notes::warn_of_moments;
use crate::pages::page_asked;
use crate::strays::{Given, explain_stray, option_of};
use crate::values::explain_value;
use crate::verify_words::explain_verify;
use cli_help::{OptionName, USAGES, Usage, VERBS, Verb};
use cli_words::{Command, option_in};
use fed_base::Text;
use plain_notes::{Notes, Sentence, is_like};
use std::alloc::Global;

/// Says why the words, those after the program's name, give no command, or which moments of the command look wrong. Of several faults of
/// the words the first is said; of missing options each.
pub fn explain_command(alloc: Global, words: &[Text], command: &Command, notes: &mut Notes) {
    match command {
        Command::Faulty => explain_words(alloc, words, notes),
        _ => warn_of_moments(alloc, command, notes),
    }
}

fn explain_words(alloc: Global, words: &[Text], notes: &mut Notes) {
    match words {
        [] => {
            notes.say(Sentence::of(alloc, b"no command is given"));
            say_usages(alloc, notes);
        }
        // The page that they ask for is written by itself.
        _ if page_asked(words).is_some() => {}
        [verb, rest @ ..] => explain_verb(alloc, verb.as_slice(), rest, notes),
    }
}

fn explain_verb(alloc: Global, word: &[u8], rest: &[Text], notes: &mut Notes) {
    match Verb::of_word(word) {
        Some(Verb::Verify) => explain_verify(alloc, rest, notes),
        Some(Verb::Help) => explain_help(alloc, rest, notes),
        Some(verb) => explain_call(alloc, verb, rest, notes),
        None => explain_flag(alloc, word, rest, notes),
    }
}

// Behind `help` stands a command.
fn explain_help(alloc: Global, rest: &[Text], notes: &mut Notes) {
    match rest {
        [] => {}
        [command] => explain_unknown(alloc, command.as_slice(), notes),
        [_, more, ..] => notes.say(
            Sentence::of(alloc, b"help takes one word, a command; ")
                .and(more.as_slice())
                .and(b" is one too many"),
        ),
    }
}

// A word that is no verb may be a flag, which stands alone.
fn explain_flag(alloc: Global, word: &[u8], rest: &[Text], notes: &mut Notes) {
    if word == b"--version".as_slice() {
        explain_company(alloc, word, rest, notes);
    } else if word == b"\xff".as_slice() {
        notes.say(Sentence::of(alloc, b"a word of the command line isn't UTF-8"));
    } else {
        explain_unknown(alloc, word, notes);
    }
}

fn explain_company(alloc: Global, flag: &[u8], rest: &[Text], notes: &mut Notes) {
    if let [more, ..] = rest {
        notes.say(
            Sentence::of(alloc, flag)
                .and(b" stands alone; ")
                .and(more.as_slice())
                .and(b" is one word too many"),
        );
    }
}

fn explain_call(alloc: Global, verb: Verb, rest: &[Text], notes: &mut Notes) {
    let act = match option_in(rest, b"--act") {
        Some(act) => act.as_slice(),
        None => b"",
    };
    match usage_of(verb, act) {
        Some(usage) => if usage.act.is_empty() || usage.act.as_bytes() == act {
            explain_options(alloc, usage, rest, notes);
        } else {
            explain_act(alloc, act, notes);
        },
        None => {},
    }
}

fn explain_options(alloc: Global, usage: &Usage, words: &[Text], notes: &mut Notes) {
    if !explain_pairs(alloc, Given { usage, words }, words, notes) {
        explain_missing(alloc, usage, words, notes);
    }
}

// A change of a ring that there isn't.
fn explain_act(alloc: Global, act: &[u8], notes: &mut Notes) {
    if act.is_empty() {
        notes.say(Sentence::of(
            alloc,
            b"the option --act is missing; it is add, retire or revoke",
        ));
    } else {
        explain_value(alloc, OptionName::Act, act, notes);
    }
}

// How the command is called for that act, or as a whole where it has no acts or that one isn't known.
fn usage_of(verb: Verb, act: &[u8]) -> Option<&'static Usage> {
    let mut found = None;
    for usage in &USAGES {
        if usage.verb == verb {
            if usage.act.as_bytes() == act {
                return Some(usage);
            }
            found = Some(usage);
        }
    }
    found
}

// Says the first fault among pairs of an option and its value, which are at the end of the words that are given. It answers whether there
// was one.
fn explain_pairs(alloc: Global, given: Given<'_>, pairs: &[Text], notes: &mut Notes) -> bool {
    match pairs {
        [] => false,
        [option] => {
            explain_last(alloc, given, option.as_slice(), notes);
            true
        }
        [option, value, rest @ ..] => {
            explain_pair(
                alloc,
                given,
                option.as_slice(),
                value.as_slice(),
                rest,
                notes,
            ) || explain_pairs(alloc, given, rest, notes)
        }
    }
}

// The option without a value.
fn explain_last(alloc: Global, given: Given<'_>, option: &[u8], notes: &mut Notes) {
    match option_of(given.usage, option) {
        Some(name) => notes.say(valueless_sentence(alloc, name)),
        None => explain_stray(alloc, given, option, notes),
    }
}

fn valueless_sentence(alloc: Global, name: OptionName) -> Sentence {
    Sentence::of(alloc, b"the option ")
        .and(name.word())
        .and(b" has no value; it takes ")
        .and(name.value())
}

fn explain_pair(
    alloc: Global,
    given: Given<'_>,
    option: &[u8],
    value: &[u8],
    rest: &[Text],
    notes: &mut Notes,
) -> bool {
    let Some(name) = option_of(given.usage, option) else {
        explain_stray(alloc, given, option, notes);
        return true;
    };
    if option_of(given.usage, value).is_some() {
        notes.say(valueless_sentence(alloc, name));
        return true;
    }
    if option_in(rest, option).is_some() {
        notes.say(
            Sentence::of(alloc, b"the option ")
                .and(option)
                .and(b" stands twice"),
        );
        return true;
    }
    explain_value(alloc, name, value, notes)
}

// Each needed option that the words lack.
fn explain_missing(alloc: Global, usage: &Usage, words: &[Text], notes: &mut Notes) {
    for name in usage.needed {
        if option_in(words, name.word()).is_none() {
            notes.say(
                Sentence::of(alloc, b"the option ")
                    .and(name.word())
                    .and(b" ")
                    .and(name.value())
                    .and(b" is missing"),
            );
        }
    }
}

// A command that there isn't.
fn explain_unknown(alloc: Global, command: &[u8], notes: &mut Notes) {
    let sentence = Sentence::of(alloc, b"there is no command ").and(command);
    notes.say(match command_like(command) {
        Some(known) => sentence.and(b"; did you mean ").and(known.word()).and(b"?"),
        None => sentence.and(b"; see fed --help"),
    });
}

// The command that is meant by a word that is none: the one that it is but for the case of its letters, or else one that is like it.
fn command_like(word: &[u8]) -> Option<Verb> {
    let same = VERBS
        .iter()
        .find(|verb| word.eq_ignore_ascii_case(verb.word()));
    match same {
        Some(verb) => Some(*verb),
        None => VERBS
            .iter()
            .find(|verb| is_like(word, verb.word()))
            .copied(),
    }
}

// How each command is called.
fn say_usages(alloc: Global, notes: &mut Notes) {
    notes.say(Sentence::of(alloc, b"usage: fed verify PUB < TEXT"));
    for usage in &USAGES {
        notes.say(usage_line(alloc, usage));
    }
    notes.say(Sentence::of(alloc, b"usage: fed help COMMAND"));
    notes.say(Sentence::of(alloc, b"usage: fed --help | --version"));
}

fn usage_line(alloc: Global, usage: &Usage) -> Sentence {
    let mut line = Sentence::of(alloc, b"usage: fed ").and(usage.verb.word());
    for name in usage.needed {
        let value = if *name == OptionName::Act {
            usage.act.as_bytes()
        } else {
            name.value()
        };
        line = line.and(b" ").and(name.word()).and(b" ").and(value);
    }
    for name in usage.free {
        line = line
            .and(b" [")
            .and(name.word())
            .and(b" ")
            .and(name.value())
            .and(b"]");
    }
    if usage.input.is_empty() {
        line
    } else {
        line.and(b" < ").and(usage.input.as_bytes())
    }
}
