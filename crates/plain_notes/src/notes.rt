// Sentences for a person.

ghost use Rattle.std.specs.Prelude.{◌≡◌, ◌++◌, ◌⊎◌, [], IsUtf8};
ghost use Rattle.plain_notes.specs.Notes.{IsNotes, IsSaid};

use crate::sentence::Sentence;
use fed_base::Text;
use std::alloc::Global;
use std::marker::Model;

/// What is said to a person: lines, each of a sentence, without control characters but the line ends.
#[derive(Drop)]
pub struct Notes {
    text: Text,
    moment: Option<u64>,
}

// Contracts see notes as their text.
impl Model for Notes {
    ghost use Rattle.std.specs.Prelude.{List, ℕ};
    ghost use Rattle.plain_notes.specs.Notes.{IsNotes};

    ghost Value = { List ℕ };

    ghost view = { λ notes. notes.text };

    ghost invariant = { λ notes. IsNotes notes.text };
}

impl Notes {
    /// Notes without a sentence, that are made at a moment in seconds since 1970, where it is known. It takes no memory.
    pub fn new(alloc: Global, moment: Option<u64>) -> Notes
        ensures { result ≡ [] }
    {
        Notes {
            text: Text::new(alloc),
            moment,
        }
    }

    /// The moment that they are made at, in seconds since 1970, where it is known: what has ended by then is warned of.
    pub fn moment(&self) -> Option<u64> {
        self.moment
    }

    /// The lines.
    #[tactic(auto, using(crate::proofs::Plain::notes_utf8))]
    pub fn text(&self) -> &[u8]
        ensures text { result.now ≡ self.now }
        ensures plain { IsNotes result.now }
        ensures utf8 { IsUtf8 result.now }
    {
        self.text.as_slice()
    }

    /// Says one sentence more. Where memory is wanting, or was when the sentence was made, the notes stay as they are.
    #[tactic(auto, using(crate::proofs::Plain::line_notes))]
    pub fn say(&mut self, sentence: Sentence)
        ensures { IsSaid self.old sentence self.new }
    {
        let Some(mut line) = sentence.into_text() else {
            return;
        };
        if line.push(b'\n').is_err() {
            return;
        }
        add_line(&mut self.text, line.as_slice());
    }
}

// Appends the line, or nothing where memory is wanting.
#[tactic(auto, using(crate::proofs::Plain::notes_append))]
fn add_line(text: &mut Text, line: &[u8])
    requires text { IsNotes text.old }
    requires line { IsNotes line.now }
    ensures notes { IsNotes text.new }
    ensures whole { (text.new ≡ text.old) ⊎ (text.new ≡ text.old ++ line.now) }
{
    match text.append(line) {
        Ok(()) | Err(_) => {},
    }
}
