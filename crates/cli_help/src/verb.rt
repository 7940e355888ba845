// The words that name a command.

ghost use Rattle.std.specs.Prelude.{◌≡◌, Some, find};
ghost use Rattle.std.specs.Option.{option_copied};
ghost use Rattle.cli_help.specs.Verbs.{is_called, page_of, verb_of, word_of};

use crate::answer_pages::{CHECK, CHECK_REPLY, HELP_PAGE, SHOW, VERIFY};
use crate::key_pages::{ISSUE, KEYGEN, PUBLIC, ROTATE};
use crate::node_pages::{AUTHORITY, CHECK_CONFIG, REGISTER, REHEARSE, RESOLVE, RESOLVER};

/// The first word of a command line, which names a command.
#[derive(Clone, Copy, PartialEq, Eq, Drop)]
pub enum Verb {
    Authority,
    Check,
    CheckConfig,
    CheckReply,
    Help,
    Issue,
    Keygen,
    Public,
    Register,
    Rehearse,
    Resolve,
    Resolver,
    Rotate,
    Show,
    Verify,
}

/// All of them, in the order of `fed --help`.
pub const VERBS: [Verb; 15] = [
    Verb::Verify,
    Verb::Keygen,
    Verb::Issue,
    Verb::Rotate,
    Verb::Public,
    Verb::Check,
    Verb::CheckReply,
    Verb::Show,
    Verb::CheckConfig,
    Verb::Authority,
    Verb::Resolver,
    Verb::Resolve,
    Verb::Register,
    Verb::Rehearse,
    Verb::Help,
];

impl Verb {
    /// The verb of that word, as `check-config`, or `None` where there is none.
    #[tactic(auto, unfolding(crate::specs::Verbs::verb_of))]
    pub fn of_word(word: &[u8]) -> Option<Verb>
        ensures { result ≡ verb_of word.now }
    {
        first_of(&VERBS, word).copied()
    }

    /// Its word, by which [`Verb::of_word`] gives it.
    #[tactic(auto, unfolding(crate::specs::Verbs::verb_of))]
    pub fn word(self) -> &'static [u8]
        ensures word { result.now ≡ word_of self }
        ensures own { verb_of result.now ≡ Some self }
    {
        match self {
            Verb::Authority => b"authority",
            Verb::Check => b"check",
            Verb::CheckConfig => b"check-config",
            Verb::CheckReply => b"check-reply",
            Verb::Help => b"help",
            Verb::Issue => b"issue",
            Verb::Keygen => b"keygen",
            Verb::Public => b"public",
            Verb::Register => b"register",
            Verb::Rehearse => b"rehearse",
            Verb::Resolve => b"resolve",
            Verb::Resolver => b"resolver",
            Verb::Rotate => b"rotate",
            Verb::Show => b"show",
            Verb::Verify => b"verify",
        }
    }

    /// The page of its command: how it is called, its words, its input, what it writes, its statuses and an example. Lines of at most 80
    /// bytes, each with its line end.
    pub fn page(self) -> &'static [u8]
        ensures { result.now ≡ page_of self }
    {
        match self {
            Verb::Authority => AUTHORITY,
            Verb::Check => CHECK,
            Verb::CheckConfig => CHECK_CONFIG,
            Verb::CheckReply => CHECK_REPLY,
            Verb::Help => HELP_PAGE,
            Verb::Issue => ISSUE,
            Verb::Keygen => KEYGEN,
            Verb::Public => PUBLIC,
            Verb::Register => REGISTER,
            Verb::Rehearse => REHEARSE,
            Verb::Resolve => RESOLVE,
            Verb::Resolver => RESOLVER,
            Verb::Rotate => ROTATE,
            Verb::Show => SHOW,
            Verb::Verify => VERIFY,
        }
    }
}

// The first of these verbs that has the word.
fn first_of<'a>(verbs: &'a [Verb], word: &[u8]) -> Option<&'a Verb>
    ensures { option_copied result ≡ find (is_called word.now) verbs.now }
{
    verbs.iter().find(|verb| is_called(verb, word))
}

fn is_called(verb: &Verb, word: &[u8]) -> bool
    ensures { result ≡ is_called word.now verb.now }
{
    verb.word() == word
}
