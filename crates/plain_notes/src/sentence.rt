// One sentence.

ghost use Rattle.std.specs.Prelude.{◌≡◌, ◌<◌, ◌++◌, ◌∷◌, [], codes, IsTrue, None, Some, OnOk, IfOk};
ghost use Rattle.std.specs.List.{list_all};
ghost use Rattle.plain_notes.specs.Notes.{IsLonger, IsPlain, digit, is_printable, piece, shown, shown_byte};

use crate::dated::append_moment;
use fed_base::{Memory, Text};
use std::alloc::Global;
use std::marker::Model;

// How many bytes of a piece are shown at most.
const MOST: usize = 400;

/// A sentence that is being made: `fed: `, and then piece by piece. Where memory is wanting it is given up as a whole.
#[derive(Drop)]
pub struct Sentence {
    text: Option<Text>,
}

// Contracts see its text, or `None` once memory was wanting.
impl Model for Sentence {
    ghost use Rattle.std.specs.Prelude.{List, ℕ, Option, IfSome};
    ghost use Rattle.plain_notes.specs.Notes.{IsPlain};

    ghost Value = { Option (List ℕ) };

    ghost view = { λ sentence. sentence.text };

    ghost invariant = { λ sentence. IfSome sentence.text IsPlain };
}

impl Sentence {
    /// A sentence that begins with these bytes.
    pub fn of(alloc: Global, bytes: &[u8]) -> Sentence
        ensures { IsLonger (Some (codes "fed: ")) bytes.now result }
    {
        let start = match Text::of(alloc, b"fed: ") {
            Ok(text) => Sentence { text: Some(text) },
            Err(_) => Sentence { text: None },
        };
        start.and(bytes)
    }

    /// The sentence with these bytes behind it, each that isn't printable ASCII as `\x` and its two hexadecimal digits; of more than 400
    /// bytes the first 400 and `..`.
    pub fn and(self, bytes: &[u8]) -> Sentence
        ensures { IsLonger self bytes.now result }
    {
        let Some(mut text) = self.text else {
            return Sentence { text: None };
        };
        match add_piece(&mut text, bytes) {
            Ok(()) => Sentence { text: Some(text) },
            Err(Memory) => Sentence { text: None },
        }
    }

    /// The sentence with a number in decimal digits behind it.
    pub fn and_number(self, alloc: Global, number: u64) -> Sentence {
        match format!(in alloc; "{number}") {
            Ok(digits) => self.and(digits.as_bytes()),
            Err(_) => Sentence { text: None },
        }
    }

    /// The sentence with a moment behind it, which is in seconds since 1970, and then its date.
    pub fn and_moment(self, alloc: Global, moment: u64) -> Sentence {
        let mut text = Text::new(alloc);
        match append_moment(alloc, &mut text, moment) {
            Ok(()) => self.and(text.as_slice()),
            Err(_) => Sentence { text: None },
        }
    }

    /// The sentence's text, or `None` where memory was wanting.
    pub(crate) fn into_text(self) -> Option<Text>
        ensures { result ≡ self }
    {
        self.text
    }
}

#[tactic(auto, unfolding(crate::specs::Notes::piece))]
fn add_piece(text: &mut Text, bytes: &[u8]) -> Result<(), Memory>
    requires { IsPlain text.old }
    ensures added { OnOk result (text.new ≡ text.old ++ piece bytes.now) }
    ensures plain { OnOk result (IsPlain text.new) }
{
    if bytes.len() > MOST {
        let (front, _) = bytes.split_at(MOST);
        add_shown(text, front)?;
        text.append(b"..")
    } else {
        add_shown(text, bytes)
    }
}

#[tactic(auto, unfolding(crate::specs::Notes::shown))]
fn add_shown(text: &mut Text, bytes: &[u8]) -> Result<(), Memory>
    requires { IsPlain text.old }
    ensures added { OnOk result (text.new ≡ text.old ++ shown bytes.now) }
    ensures plain { OnOk result (IsPlain text.new) }
{
    match bytes {
        [] => Ok(()),
        [byte, rest @ ..] => {
            add_byte(text, *byte)?;
            add_shown(text, rest)
        }
    }
}

#[tactic(auto, unfolding(crate::specs::Notes::shown_byte))]
fn add_byte(text: &mut Text, byte: u8) -> Result<(), Memory>
    requires { IsPlain text.old }
    ensures added { OnOk result (text.new ≡ text.old ++ shown_byte byte) }
    ensures plain { OnOk result (IsPlain text.new) }
{
    if 0x20 <= byte && byte <= 0x7e {
        text.push(byte)
    } else {
        text.append(&[b'\\', b'x', digit(byte / 16), digit(byte % 16)])
    }
}

#[tactic(auto, unfolding(crate::specs::Notes::digit))]
pub(crate) fn digit(n: u8) -> u8
    requires { n < 16 }
    ensures digit { result ≡ digit n }
    ensures plain { IsTrue (is_printable result) }
{
    if n < 10 { b'0' + n } else { b'a' - 10 + n }
}
