// What a trace shows of a text and a key.

ghost use Rattle.std.specs.Prelude.{◌≡◌, bytes_eq};
ghost use Rattle.std.specs.List.{list_any};
ghost use Rattle.sealed.specs.Seals.{pair_of};
ghost use Rattle.resolve_round.specs.Knowing.{answer_in, is_shown_at, is_shown_in, shows_pair};

use crate::trace::{Check, Event};
use statement_shelf::{Proven, ShelfCall, ShelfReply};

// What the checks say of the text and the key, where one is of them.
#[tactic(auto, unfolding(crate::specs::Knowing::answer_in))]
pub fn checked(checks: &[Check], text: &[u8], public: &[u8; 32]) -> Option<bool>
    ensures { result ≡ answer_in checks.now (pair_of text.now public.now) }
{
    for check in checks {
        if check.text.as_slice() == text && check.public == *public {
            return Some(check.good);
        }
    }
    None
}

// Whether a hit shows that the text verifies under the key.
#[tactic(auto, unfolding(crate::specs::Knowing::is_shown_in))]
pub fn shown(events: &[Event], text: &[u8], public: &[u8; 32]) -> bool
    ensures { result ≡ is_shown_in events.now (pair_of text.now public.now) }
{
    for event in events {
        if shows(event, text, public) {
            return true;
        }
    }
    false
}

// Whether an event shows that the text verifies under the key.
fn shows(event: &Event, text: &[u8], public: &[u8; 32]) -> bool
    ensures { result ≡ is_shown_at (pair_of text.now public.now) event.now }
{
    match event {
        Event::Shelf(ShelfCall::Look { url: _, moment: _ }, ShelfReply::Hit(proven)) => {
            has_proved(proven, text, public)
        }
        _ => false,
    }
}

// Whether the text was told as proved under the key.
fn has_proved(proven: &Proven, text: &[u8], public: &[u8; 32]) -> bool
    ensures { result ≡ shows_pair (pair_of text.now public.now) proven.now }
{
    if proven.text.as_slice() == text {
        has_key(proven.keys.as_slice(), public)
    } else {
        false
    }
}

// Whether the key is one of these.
pub(crate) fn has_key(keys: &[[u8; 32]], public: &[u8; 32]) -> bool
    ensures { result ≡ list_any (λ key. bytes_eq key public.now) keys.now }
{
    for key in keys {
        if *key == *public {
            return true;
        }
    }
    false
}
