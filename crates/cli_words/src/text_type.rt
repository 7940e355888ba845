// The types of text that `issue` seals.

ghost use Rattle.std.specs.Prelude.{◌≡◌, IfOk};
ghost use Rattle.std.specs.Str.{IsUtf8};
ghost use Rattle.cli_words.specs.TextTypes.{type_name, type_of};

use entity_statement::STATEMENT_TYPE;
use fed_base::{Memory, Text};
use std::alloc::Global;
use trust_mark::{DELEGATION_TYPE, MARK_TYPE};

/// A type of text that claims are sealed as.
#[derive(Clone, Copy, Drop)]
pub enum TextType {
    /// An entity statement (OpenID Federation 1.0 section 3).
    Statement,
    /// A trust mark (section 7.1).
    Mark,
    /// A delegation (section 7.2.1).
    Delegation,
}

impl TextType {
    /// The type that the header's `typ` names.
    pub fn of(word: &[u8]) -> Option<TextType>
        ensures { result ≡ type_of word.now }
    {
        if word == STATEMENT_TYPE {
            Some(TextType::Statement)
        } else if word == MARK_TYPE {
            Some(TextType::Mark)
        } else if word == DELEGATION_TYPE {
            Some(TextType::Delegation)
        } else {
            None
        }
    }

    /// The header's `typ`.
    pub fn name(self, alloc: Global) -> Result<Text, Memory>
        ensures name { IfOk result (λ name. name ≡ type_name self) }
        ensures utf8 { IfOk result IsUtf8 }
    {
        match self {
            TextType::Statement => Text::of(alloc, STATEMENT_TYPE),
            TextType::Mark => Text::of(alloc, MARK_TYPE),
            TextType::Delegation => Text::of(alloc, DELEGATION_TYPE),
        }
    }
}
