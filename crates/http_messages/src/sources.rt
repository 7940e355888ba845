// Bytes that a source gives.

ghost use Rattle.std.specs.Prelude.{◌≡◌, ℕ, Bool, false, List, [], None, length};
ghost use Rattle.http_messages.specs.Flows.{Given, TakenFew};

use crate::inflow::Inflow;
use fed_ports::{Failed, Source};

/// The way in which more is asked of a source.
pub struct Taking;

impl<P: Source> Inflow<P> for Taking {
    ghost use Rattle.std.proofs.Common.{refl, ◌∙◌};
    ghost use Rattle.http_messages.specs.FlowLaws.{given_none, given_on, few_given, few_given_on};

    ghost came = { λ a b x e. Given (P.left a) (P.left b) x e × (P.source_side b ≡ P.source_side a) };

    ghost broke = { λ a b x. Given (P.left a) (P.left b) x false × (P.source_side b ≡ P.source_side a) };

    ghost few = { λ a b n. TakenFew (P.left a) (P.left b) n × (P.source_side b ≡ P.source_side a) };

    ghost in_faults = { λ a. P.read_faults a };

    ghost told = { λ _. None };

    ghost fixed = { Unit {0} };

    ghost fixed_of = { λ _. tt };

    ghost ready = { λ _. Unit {0} };

    ghost came_none = { λ a. (given_none (P.left a), refl) };

    ghost came_on = { λ a b c x y e p q. (given_on (P.left a) (P.left b) (P.left c) x y e p.0 q.0, q.1 ∙ p.1) };

    ghost broke_on = { λ a b c x y p q. (given_on (P.left a) (P.left b) (P.left c) x y false p.0 q.0, q.1 ∙ p.1) };

    ghost few_came = { λ a b x e n p h. (few_given (P.left a) (P.left b) x e n p.0 h, p.1) };

    ghost few_on = { λ a b c x m n p q h. (few_given_on (P.left a) (P.left b) (P.left c) x m n p.0 q.0 h, q.1 ∙ p.1) };

    fn more(from: &mut P, into: &mut [u8]) -> Result<usize, Failed> {
        from.take(into)
    }
}
