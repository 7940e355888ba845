// What is waited for where standard input is a terminal.

use cli_words::{Act, Call, Command, Inspection, read_call};
use fed_base::Text;
use plain_notes::{Notes, Sentence};
use std::alloc::Global;

/// Says what the command of these words waits for where standard input is a terminal, and how it ends.
pub fn explain_waiting(alloc: Global, words: &[Text], notes: &mut Notes) {
    let wanted = wanted_after(alloc, words);
    if !wanted.is_empty() {
        notes.say(
            Sentence::of(alloc, b"reading ").and(wanted).and(
                b" from the terminal; end it with Ctrl-D on a line of its own",
            ),
        );
    }
}

// The input that the call of these words wants, or nothing.
fn wanted_after(alloc: Global, words: &[Text]) -> &'static [u8] {
    match read_call(alloc, words) {
        Ok(Call::Command(command)) => wanted_by(&command),
        Ok(Call::Inspection(Inspection::Show { claims: false })) =>
            b"a signed text, a chain or a key set",
        Ok(Call::Inspection(Inspection::Show { claims: true })) => b"a signed text",
        Ok(Call::Inspection(Inspection::Reply(_))) => b"a resolver's reply, a signed text,",
        Ok(Call::Registration(_)) => b"an entity configuration or a chain",
        Ok(Call::Inspection(_) | Call::Service(_)) | Err(_) => b"",
    }
}

// The input that the command wants, or nothing.
fn wanted_by(command: &Command) -> &'static [u8] {
    match command {
        Command::Verify(_) => b"an entity configuration, a signed text,",
        Command::Issue { .. } => b"claims, a JSON object,",
        Command::Check { .. } => b"a chain, a JSON list of signed texts,",
        Command::Keygen { .. }
        | Command::Rotate {
            act: Act::Add { .. },
            ..
        } => b"the seeds of a key, 96 hexadecimal digits,",
        Command::Rotate { .. } | Command::Help | Command::Version | Command::Faulty => b"",
    }
}
