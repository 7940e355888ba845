// Standard input out of form.

use crate::files::syntax_fault;
use fed_json::{Json, TreeFault, is_whole, object_members, read_tree};
use plain_notes::{Notes, Sentence};
use ring_faults::SeedsFault;
use statement_notes::kind_of;
use std::alloc::Global;

/// Says that standard input is too long.
pub fn explain_long_input(alloc: Global, notes: &mut Notes) {
    notes.say(Sentence::of(alloc, b"standard input has more than 4,194,304 bytes"));
}

/// Says why the input isn't the seeds of a key.
pub fn explain_seeds(alloc: Global, fault: SeedsFault, notes: &mut Notes) {
    let about = Sentence::of(alloc, b"standard input");
    notes.say(match fault {
        SeedsFault::Prefix => about.and(
            b" begins with 0x; the seeds of a key are 96 hexadecimal digits alone",
        ),
        SeedsFault::Blank(place) => about.and(b": byte ").and_number(alloc, place).and(
            b" is a space or a line end; the seeds of a key are 96 hexadecimal digits in one piece, as | tr -d ' \\n' leaves them",
        ),
        SeedsFault::Digit(place) => about
            .and(b": byte ")
            .and_number(alloc, place)
            .and(b" isn't a hexadecimal digit; the seeds of a key are 96"),
        SeedsFault::Length(digits) => about
            .and(b": it has ")
            .and_number(alloc, digits)
            .and(b" hexadecimal digits; the seeds of a key are 96"),
    });
}

/// Says that the seeds of a key, which are accepted, are one byte over and over.
pub fn warn_of_seeds(alloc: Global, notes: &mut Notes) {
    notes.say(Sentence::of(
        alloc,
        b"warning: the seeds are one byte repeated, so that anybody can make this key; take 48 random bytes: head -c 48 /dev/urandom | od -An -v -tx1 | tr -d ' \\n'",
    ));
}

/// Says where a key that is made has ended already, at the moment of the notes.
pub fn warn_of_key_end(alloc: Global, exp: u64, notes: &mut Notes) {
    if notes.moment().is_some_and(|moment| exp <= moment) {
        notes.say(Sentence::of(alloc, b"warning: the key ended at ").and_moment(alloc, exp));
    }
}

/// Says that a key would end no later than it begins.
pub fn explain_order(alloc: Global, at: u64, exp: u64, notes: &mut Notes) {
    notes.say(
        Sentence::of(alloc, b"--exp ")
            .and_moment(alloc, exp)
            .and(b" isn't after --at ")
            .and_moment(alloc, at),
    );
}

/// Says why the input, which was read so, isn't a JSON object, where it isn't.
pub fn explain_unless_object(
    alloc: Global,
    input: &[u8],
    read: &Result<Json, TreeFault>,
    notes: &mut Notes,
) {
    match read {
        Ok(Json::Object(_)) => {},
        Ok(tree) => explain_kind(alloc, tree, b"claims are an object", notes),
        Err(TreeFault::Syntax) => explain_syntax(alloc, input, notes),
        Err(TreeFault::Memory) => {},
    }
}

/// Says why the input isn't a list of texts, where it isn't.
pub fn explain_no_list(alloc: Global, input: &[u8], notes: &mut Notes) {
    let read = read_tree(alloc, input);
    explain_unless_list(alloc, input, &read, notes);
}

/// Says why the input, which was read so, isn't a list of texts, where it isn't.
pub fn explain_unless_list(
    alloc: Global,
    input: &[u8],
    read: &Result<Json, TreeFault>,
    notes: &mut Notes,
) {
    match read {
        Ok(Json::List(items)) => explain_items(alloc, items.as_slice(), notes),
        Ok(tree) => explain_kind(alloc, tree, b"a chain is a list of signed texts", notes),
        Err(TreeFault::Syntax) => explain_syntax(alloc, input, notes),
        Err(TreeFault::Memory) => {},
    }
}

fn explain_syntax(alloc: Global, input: &[u8], notes: &mut Notes) {
    notes.say(Sentence::of(alloc, b"standard input").and(syntax_fault(input)));
}

fn explain_kind(alloc: Global, tree: &Json, wanted: &[u8], notes: &mut Notes) {
    notes.say(
        Sentence::of(alloc, b"standard input is ")
            .and(kind_of(tree))
            .and(b"; ")
            .and(wanted),
    );
}

fn explain_items(alloc: Global, items: &[Json], notes: &mut Notes) {
    let wrong = items.iter().enumerate().find(|entry| !is_text(entry.1));
    if let Some((place, item)) = wrong {
        notes.say(
            Sentence::of(alloc, b"standard input: place ")
                .and_number(alloc, place as u64)
                .and(b" is ")
                .and(kind_of(item))
                .and(b"; a chain is a list of signed texts"),
        );
    }
}

fn is_text(tree: &Json) -> bool {
    matches!(tree, Json::Text(_))
}

/// Says which of the claims holds a number that isn't kept as it is written.
pub fn explain_numbers(alloc: Global, claims: &Json, notes: &mut Notes) {
    let odd = object_members(claims)
        .iter()
        .find(|member| !is_whole(&member.value));
    if let Some(member) = odd {
        notes.say(
            Sentence::of(alloc, b"standard input: the claim ")
                .and(member.name.as_slice())
                .and(b" holds a number with a fraction, an exponent or too many digits, or -0"),
        );
    }
}

/// Says that the claims are too long.
pub fn explain_length(alloc: Global, bytes: usize, notes: &mut Notes) {
    notes.say(
        Sentence::of(alloc, b"standard input: the claims have ")
            .and_number(alloc, bytes as u64)
            .and(b" bytes as compact JSON; 179,000 are sealed at most"),
    );
}
