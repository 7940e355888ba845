// Changes of a ring among the words.

ghost use Rattle.std.specs.Prelude.{◌≡◌, IfOk};
ghost use Rattle.cli_words.specs.Acts.{act_in, act_named, add_in, reason_at, retire_in, revoke_in};

use crate::algorithm::alg_in;
use crate::moment::Moment;
use crate::options::{moment_in, option_in};
use fed_base::{Alg, Duplicate, Memory, Text};
use key_ring::RevokeReason;
use std::alloc::Global;

/// A change of a ring.
#[derive(Drop)]
pub enum Act {
    /// `--act add --at T --exp T [--alg ALG]`: put a new key of this algorithm first, for these moments.
    Add {
        /// Small where none is named.
        alg: Alg,
        at: Moment,
        exp: Moment,
    },
    /// `--act retire --kid KID`: retire the key of this name.
    Retire(Text),
    /// `--act revoke --kid KID --at T --reason R`: revoke the key of this name, since a moment and for a reason.
    Revoke {
        kid: Text,
        at: Moment,
        reason: RevokeReason,
    },
}

/// The change that the words give, or `None` where they give none.
#[tactic(auto, unfolding(crate::specs::Acts::act_in))]
pub fn read_act(alloc: Global, words: &[Text]) -> Result<Option<Act>, Memory>
    ensures { IfOk result (λ act. act ≡ act_in words.now) }
{
    match option_in(words, b"--act") {
        Some(act) => read_named(alloc, act.as_slice(), words),
        None => Ok(None),
    }
}

#[tactic(auto, unfolding(crate::specs::Acts::act_named))]
fn read_named(alloc: Global, act: &[u8], words: &[Text]) -> Result<Option<Act>, Memory>
    ensures { IfOk result (λ act'. act' ≡ act_named act.now words.now) }
{
    if act == b"add".as_slice() {
        Ok(read_add(words))
    } else if act == b"retire".as_slice() {
        read_retire(alloc, words)
    } else if act == b"revoke".as_slice() {
        read_revoke(alloc, words)
    } else {
        Ok(None)
    }
}

#[tactic(auto, unfolding(crate::specs::Acts::add_in))]
fn read_add(words: &[Text]) -> Option<Act>
    ensures { result ≡ add_in words.now }
{
    let alg = alg_in(words);
    if words.len() != 8 && (words.len() != 10 || alg.is_none()) {
        return None;
    }
    match (moment_in(words, b"--at"), moment_in(words, b"--exp")) {
        (Some(at), Some(exp)) => Some(Act::Add {
            alg: alg.unwrap_or(Alg::Small),
            at,
            exp,
        }),
        _ => None,
    }
}

#[tactic(auto, unfolding(crate::specs::Acts::retire_in))]
fn read_retire(alloc: Global, words: &[Text]) -> Result<Option<Act>, Memory>
    ensures { IfOk result (λ act. act ≡ retire_in words.now) }
{
    match option_in(words, b"--kid") {
        Some(kid) if words.len() == 6 => Ok(Some(Act::Retire(kid.copy(alloc)?))),
        _ => Ok(None),
    }
}

#[tactic(auto, unfolding(crate::specs::Acts::revoke_in))]
fn read_revoke(alloc: Global, words: &[Text]) -> Result<Option<Act>, Memory>
    ensures { IfOk result (λ act. act ≡ revoke_in words.now) }
{
    match (
        option_in(words, b"--kid"),
        moment_in(words, b"--at"),
        reason_in(words),
    ) {
        (Some(kid), Some(at), Some(reason)) if words.len() == 10 => Ok(Some(Act::Revoke {
            kid: kid.copy(alloc)?,
            at,
            reason,
        })),
        _ => Ok(None),
    }
}

fn reason_in(words: &[Text]) -> Option<RevokeReason>
    ensures { result ≡ reason_at words.now }
{
    match option_in(words, b"--reason") {
        Some(word) => RevokeReason::of_word(word.as_slice()),
        None => None,
    }
}
