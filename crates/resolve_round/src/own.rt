// Configurations that are sealed by their own keys.

ghost use Rattle.std.specs.Prelude.{◌≡◌, Some, IfOk, OnOk};
ghost use Rattle.sealed.specs.Deciding.{is_sealed_by};
ghost use Rattle.sealed.specs.Seals.{named_key};
ghost use Rattle.entity_statement.specs.Signed.{IsSplit, statement_of};
ghost use Rattle.entity_statement.specs.Told.{told};
ghost use Rattle.resolve_round.specs.Calls.{HasPass, Tests};
ghost use Rattle.resolve_round.specs.Knowing.{AnswersStand};
ghost use Rattle.resolve_round.specs.Testing.{KeepsGood, KeepsTrue};

use crate::call::Call;
use crate::halt::Halt;
use crate::tests::verifies;
use entity_statement::SignedStatement;
use fed_base::{Ledger, Text};
use std::sync::Wait;

// The key of its own set that a configuration's header names.
fn own_key(signed: &SignedStatement) -> Option<[u8; 32]>
    ensures { result ≡ named_key signed.now.compact signed.now.statement.jwks.keys }
{
    match &signed.compact.kid {
        Some(kid) => signed.statement.jwks.key_of(kid, signed.compact.alg),
        None => None,
    }
}

/// Whether a configuration is sealed by its own keys (OpenID Federation 1.0 section 9).
pub fn seals_itself<R: Wait, G: Ledger>(
    call: &mut Call<'_, R, G>,
    url: &Text,
    signed: &SignedStatement,
) -> Result<bool, Halt>
    requires of { HasPass call.old }
    requires split { IsSplit signed.now }
    requires reads { statement_of signed.now.compact.whole ≡ Some (told signed.now.statement) }
    requires answers { AnswersStand call.old.trace.now.checks }
    ensures tests { Tests G.count call.old call.new result }
    ensures sealed { IfOk result (λ good. good ≡ is_sealed_by signed.now.compact.whole signed.now.statement.jwks.keys) }
    ensures stays_true { KeepsTrue url.now signed.now.compact.whole call.old.trace.now call.new.trace.now }
    ensures proved { OnOk result (KeepsGood url.now signed.now.compact.whole call.old.trace.now call.new.trace.now) }
{
    match own_key(signed) {
        Some(public) => verifies(call, url, &signed.compact, &public),
        None => Ok(false),
    }
}
