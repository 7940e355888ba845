// Options that a command hasn't, and words in the place of one.

use crate::foreign::{done_otherwise, names_input, option_called};
use cli_help::{Form, OptionName, USAGES, Usage, Verb};
use fed_base::Text;
use plain_notes::{Notes, Sentence, is_like};
use std::alloc::Global;

/// A call: how its command is called, and all words behind the command.
#[derive(Clone, Copy, Drop)]
pub(crate) struct Given<'a> {
    pub(crate) usage: &'a Usage,
    pub(crate) words: &'a [Text],
}

/// Says of a word in the place of an option that isn't one of the command's what would do what is meant by it, where that is seen.
pub(crate) fn explain_stray(alloc: Global, given: Given<'_>, word: &[u8], notes: &mut Notes) {
    let usage = given.usage;
    if usage.verb == Verb::Resolver && word == OptionName::Stream.word() {
        notes.say(Sentence::of(
            alloc,
            b"resolver has no --stream: it answers a connection once; authority may keep connections",
        ));
    } else if word == b"-".as_slice() || !word.starts_with(b"-") {
        notes.say(stray_sentence(alloc, given, word));
    } else {
        notes.say(option_sentence(alloc, given, word));
    }
}

// The option of that word.
pub(crate) fn option_of(usage: &Usage, word: &[u8]) -> Option<OptionName> {
    match usage.needed.iter().find(|name| name.word() == word) {
        Some(name) => Some(*name),
        None => usage.free.iter().find(|name| name.word() == word).copied(),
    }
}

// The command, with its act where it has one.
fn called(sentence: Sentence, usage: &Usage) -> Sentence {
    let sentence = sentence.and(usage.verb.word());
    if usage.act.is_empty() {
        sentence
    } else {
        sentence.and(b" --act ").and(usage.act.as_bytes())
    }
}

// A word that begins as no option does.
fn stray_sentence(alloc: Global, given: Given<'_>, word: &[u8]) -> Sentence {
    let usage = given.usage;
    match missing_for(given, word) {
        Some(name) => Sentence::of(alloc, word)
            .and(b" stands in the place of an option; did you mean ")
            .and(name.word())
            .and(b" ")
            .and(word)
            .and(b"?"),
        None if usage.input.is_empty() => called(
            Sentence::of(alloc, word).and(b" is one word too many for "),
            usage,
        ),
        None if word == b"-".as_slice() => called(Sentence::of(alloc, b""), usage).and(
            b" reads standard input without being told so; leave - away",
        ),
        None => input_sentence(alloc, usage).and(b" < ").and(word),
    }
}

// That standard input is read, and the call up to it.
fn input_sentence(alloc: Global, usage: &Usage) -> Sentence {
    let sentence = called(Sentence::of(alloc, b""), usage)
        .and(b" reads standard input: fed ")
        .and(usage.verb.word());
    if usage.needed.is_empty() {
        sentence
    } else {
        sentence.and(b" ..")
    }
}

// The first needed option that the words lack and whose value the word may be, by its looks.
fn missing_for(given: Given<'_>, word: &[u8]) -> Option<OptionName> {
    given
        .usage
        .needed
        .iter()
        .find(|name| !stands_in(given.words, **name) && may_be(**name, word))
        .copied()
}

// Whether the option stands among the words, wherever.
fn stands_in(words: &[Text], name: OptionName) -> bool {
    words.iter().any(|word| word.as_slice() == name.word())
}

// Whether the word looks like a value of the option: a URL for an identifier, digits for a number, and any other for a file.
fn may_be(name: OptionName, word: &[u8]) -> bool {
    let is_url = word.starts_with(b"https://") || word.starts_with(b"http://");
    let is_number = word.iter().all(|byte| byte.is_ascii_digit());
    match name.form() {
        Form::Identifier => is_url,
        Form::Moment | Form::Connections | Form::Params | Form::Port | Form::Workers => is_number,
        Form::Word => name != OptionName::Kid && !is_url && !is_number && word != b"-".as_slice(),
        Form::Act | Form::Alg | Form::Reason | Form::TextType | Form::Yes => false,
    }
}

// An option that the command hasn't.
fn option_sentence(alloc: Global, given: Given<'_>, word: &[u8]) -> Sentence {
    let usage = given.usage;
    let (name, value) = parted(word);
    if let (Some(option), Some(value)) = (option_of(usage, name), value) {
        return Sentence::of(alloc, b"an option and its value are two words: ")
            .and(option.word())
            .and(b" ")
            .and(value);
    }
    let sentence = called(
        Sentence::of(alloc, b"the option ")
            .and(word)
            .and(b" isn't known to "),
        usage,
    );
    let otherwise = done_otherwise(name);
    match meant_by(usage, name) {
        Some(meant) => sentence.and(b"; did you mean ").and(meant.word()).and(b"?"),
        None if !otherwise.is_empty() => sentence.and(b": ").and(otherwise),
        None if names_input(name) && !usage.input.is_empty() => sentence
            .and(b", which reads standard input: < ")
            .and(usage.input.as_bytes()),
        None => sentence.and(b"; see fed --help"),
    }
}

// An option's name, and what stands behind the first `=`.
fn parted(word: &[u8]) -> (&[u8], Option<&[u8]>) {
    match word.iter().position(|&byte| byte == b'=') {
        Some(at) => (&word[..at], Some(&word[at + 1..])),
        None => (word, None),
    }
}

// The option of the command that is meant by a word. One that is an option of another command is meant as such, unless other programs have
// it for one of this command's.
fn meant_by(usage: &Usage, word: &[u8]) -> Option<OptionName> {
    if USAGES.iter().any(|other| option_of(other, word).is_some()) {
        return option_called(usage, word);
    }
    let like = usage.needed.iter().find(|name| is_like(word, name.word()));
    match like {
        Some(name) => Some(*name),
        None => match short_for(usage, word) {
            Some(name) => Some(name),
            None => option_called(usage, word),
        },
    }
}

// The needed option of which the word has the first letter behind one hyphen, as `-r` of `--ring`.
fn short_for(usage: &Usage, word: &[u8]) -> Option<OptionName> {
    let [b'-', letter] = word else {
        return None;
    };
    usage
        .needed
        .iter()
        .find(|name| name.word().get(2).is_some_and(|first| *first == *letter))
        .copied()
}
