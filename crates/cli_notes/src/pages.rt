// What the program says of itself, where it is asked for otherwise than by `--help`, `--version` and `help COMMAND`.

use cli_help::{HELP, VERSION, Verb};
use cli_words::{Call, Command, read_call};
use fed_base::Text;
use std::alloc::Global;

/// The page that words that give no command ask for all the same, as `check --help`, `-h` and `-V` do: that of a command, the one of all
/// commands, or the version. `None` where they ask for none, and where memory is wanting.
pub fn page_meant(alloc: Global, words: &[Text]) -> Option<&'static [u8]> {
    match read_call(alloc, words) {
        Ok(Call::Command(Command::Faulty)) => page_asked(words),
        Ok(_) | Err(_) => None,
    }
}

// The page that faulty words ask for.
pub(crate) fn page_asked(words: &[Text]) -> Option<&'static [u8]> {
    match words {
        [] => None,
        [word] => page_of_word(word.as_slice()),
        [word, rest @ ..] => match Verb::of_word(word.as_slice()) {
            Some(verb) => page_of_call(verb, rest),
            None => page_behind(word.as_slice(), rest),
        },
    }
}

// The page for which one word asks.
fn page_of_word(word: &[u8]) -> Option<&'static [u8]> {
    if asks_for_help(word) || word == b"help".as_slice() || word == b"--usage".as_slice() {
        Some(HELP)
    } else if asks_for_version(word) || word == b"version".as_slice() {
        Some(VERSION)
    } else {
        None
    }
}

// The page for which the words behind a command ask.
fn page_of_call(verb: Verb, rest: &[Text]) -> Option<&'static [u8]> {
    if rest.iter().any(|word| asks_for_help(word.as_slice())) || is_help(rest) {
        Some(verb.page())
    } else if rest.iter().any(|word| asks_for_version(word.as_slice())) {
        Some(VERSION)
    } else {
        None
    }
}

// Whether the words are `help` alone.
fn is_help(rest: &[Text]) -> bool {
    match rest {
        [word] => word.as_slice() == b"help".as_slice(),
        _ => false,
    }
}

// The page of a command that stands behind a word that asks for help.
fn page_behind(word: &[u8], rest: &[Text]) -> Option<&'static [u8]> {
    if !asks_for_help(word) {
        return None;
    }
    match rest {
        [command, ..] => Some(match Verb::of_word(command.as_slice()) {
            Some(verb) => verb.page(),
            None => HELP,
        }),
        [] => Some(HELP),
    }
}

fn asks_for_help(word: &[u8]) -> bool {
    word == b"--help".as_slice()
        || word == b"-h".as_slice()
        || word == b"-help".as_slice()
        || word == b"-?".as_slice()
}

fn asks_for_version(word: &[u8]) -> bool {
    word == b"--version".as_slice()
        || word == b"-V".as_slice()
        || word == b"-v".as_slice()
        || word == b"-version".as_slice()
}
