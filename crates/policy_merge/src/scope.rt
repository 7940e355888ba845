// The parameter scope, and the members of values.

ghost use Rattle.std.specs.Prelude.{◌≡◌, IfOk};
ghost use Rattle.std.specs.Option.{option_or, option_copied};
ghost use Rattle.fed_json.specs.Trees.{as_list};
ghost use Rattle.policy_merge.specs.Scope.{is_scope as names_scope, word_members, words_in as words_of};

use fed_base::{Memory, Seq, Text};
use fed_json::Json;
use std::alloc::Global;

/// Whether the parameter is `scope`, whose texts are words with spaces between them (RFC 6749 section 3.3).
pub fn is_scope(name: &Text) -> bool
    ensures { result ≡ names_scope name.now }
{
    name.as_slice() == b"scope".as_slice()
}

/// The words of a text, the non-empty pieces between spaces, as texts.
pub fn words(alloc: Global, text: &[u8]) -> Result<Seq<Json>, Memory>
    ensures { IfOk result (λ words. words ≡ word_members text.now) }
{
    let mut words = Seq::new(alloc);
    for word in text.split(|byte| *byte == b' ') {
        if !word.is_empty() {
            words.push(Json::Text(Text::of(alloc, word)?))?;
        }
    }
    Ok(words)
}

/// The words of the value, where the parameter is `scope` and the value a text.
pub fn words_in(alloc: Global, name: &Text, value: &Json) -> Result<Option<Seq<Json>>, Memory>
    ensures { IfOk result (λ words. words ≡ words_of name.now value.now) }
{
    match value {
        Json::Text(text) => if is_scope(name) {
            Ok(Some(words(alloc, text.as_slice())?))
        } else {
            Ok(None)
        },
        _ => Ok(None),
    }
}

/// The members of a value: its words, where it has such, or its items, where it is a list. Other values have none.
pub fn members<'a>(words: Option<&'a Seq<Json>>, value: &'a Json) -> Option<&'a Seq<Json>>
    ensures { option_copied result ≡ option_or (option_copied words.entry) (as_list value.now) }
{
    match (words, value) {
        (Some(words), _) => Some(words),
        (None, Json::List(items)) => Some(items),
        _ => None,
    }
}
