// Tests of signatures, each pair of a text and a key once.

ghost use Rattle.std.specs.Prelude.{◌≡◌, ◌∷◌, [], ◌++◌, true, IfOk, OnErr, OnOk};
ghost use Rattle.jws_form.specs.Compact.{IsCompact};
ghost use Rattle.sealed.specs.Answers.{IsTested};
ghost use Rattle.sealed.specs.Seals.{pair_of};
ghost use Rattle.resolve_round.specs.Calls.{HasPass, Tests};
ghost use Rattle.resolve_round.specs.Knowing.{AnswersStand, IsAnswer, IsKnownGood, known_of};
ghost use Rattle.resolve_round.specs.Testing.{CountsChecks, KeepsKnown, StaysProved, StaysTrue, check_of, is_yes};

use crate::acts::record_call;
use crate::call::Call;
use crate::halt::Halt;
use crate::known::{checked, shown};
use crate::trace::{Check, Trace};
use fed_base::{Duplicate, Ledger, Memory, Seq, Steps, Text};
use jws_form::Compact;
use sealed::{Tested, test_key};
use statement_shelf::ShelfCall;
use std::alloc::Global;
use std::sync::Wait;

// Tests a pair, and adds the check. The room is taken before the test.
pub(crate) fn test<G: Ledger>(
    alloc: Global,
    checks: &mut Seq<Check>,
    steps: &mut Steps<G>,
    compact: &Compact,
    public: &[u8; 32],
) -> Result<Tested, Memory>
    requires { IsCompact compact.now.whole compact.now }
    ensures tested { IfOk result (IsTested compact.now public.now) }
    ensures ok { IfOk result (λ tested. checks.new ≡ checks.old ++ check_of (pair_of compact.now.whole public.now) (is_yes tested) ∷ []) }
    ensures err { OnErr result (checks.new ≡ checks.old) }
    ensures counted { CountsChecks checks.old checks.new (G.count steps.old.ledger) (G.count steps.new.ledger) }
{
    let text = compact.whole.copy(alloc)?;
    let at = checks.len();
    checks.push(Check {
        text: Text::new(alloc),
        public: *public,
        good: false,
    })?;
    match test_key(alloc, compact, public, steps) {
        Ok(tested) => {
            let good = is_good(&tested);
            checks.set(
                at,
                Check {
                    text,
                    public: *public,
                    good,
                },
            );
            Ok(tested)
        }
        Err(Memory) => {
            checks.pop();
            Err(Memory)
        }
    }
}

// Whether the text verifies.
fn is_good(tested: &Tested) -> bool
    ensures { result ≡ is_yes tested.now }
{
    match tested {
        Tested::Yes(_) => true,
        Tested::No(_) => false,
    }
}

// Whether the text verifies under the key, where the trace shows it.
fn known_answer(trace: &Trace, text: &[u8], public: &[u8; 32]) -> Option<bool>
    ensures { result ≡ known_of trace.now (pair_of text.now public.now) }
{
    match checked(trace.checks.as_slice(), text, public) {
        Some(good) => Some(good),
        None => {
            if shown(trace.events.as_slice(), text, public) {
                Some(true)
            } else {
                None
            }
        }
    }
}

/// Whether the text at the URL verifies under the key: as the trace shows, or as a test says, which is told in the trace. A pair that
/// verifies is proved on the cache then.
pub fn verifies<R: Wait, G: Ledger>(
    call: &mut Call<'_, R, G>,
    url: &Text,
    compact: &Compact,
    public: &[u8; 32],
) -> Result<bool, Halt>
    requires of { HasPass call.old }
    requires compact { IsCompact compact.now.whole compact.now }
    requires answers { AnswersStand call.old.trace.now.checks }
    ensures tests { Tests G.count call.old call.new result }
    ensures answer { IfOk result (IsAnswer (pair_of compact.now.whole public.now)) }
    ensures good { IfOk result (λ good. good ≡ true → IsKnownGood call.new.trace.now (pair_of compact.now.whole public.now)) }
    ensures stays_known { KeepsKnown call.old.trace.now call.new.trace.now }
    ensures stays_true { StaysTrue url.now (pair_of compact.now.whole public.now) call.old.trace.now call.new.trace.now }
    ensures proved { OnOk result (StaysProved url.now (pair_of compact.now.whole public.now) call.old.trace.now call.new.trace.now) }
{
    if let Some(good) = known_answer(call.trace, compact.whole.as_slice(), public) {
        return Ok(good);
    }
    match test(
        call.alloc,
        &mut call.trace.checks,
        call.steps,
        compact,
        public,
    )? {
        Tested::Yes(seal) => {
            let url = url.copy(call.alloc)?;
            let proving = ShelfCall::Prove { url, seal };
            record_call(
                call.commons,
                call.rt,
                call.alloc,
                call.pass,
                &mut call.trace.events,
                proving,
            )?;
            Ok(true)
        }
        Tested::No(_) => Ok(false),
    }
}
