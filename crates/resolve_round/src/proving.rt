// Pairs that are proved on the cache, where their text was placed anew.

ghost use Rattle.std.specs.Prelude.{◌≡◌, ◌<◌, length, IfOk, OnErr, OnOk};
ghost use Rattle.resolve_round.specs.Calls.{HasPass, UsesCache};
ghost use Rattle.resolve_round.specs.Knowing.{AnswersStand, IsAnswer};
ghost use Rattle.resolve_round.specs.Proving.{AddsProves, IsGoodSeal, ProvesAt, ProvesEach};
ghost use Rattle.resolve_round.specs.Traces.{pair_in};

use crate::acts::record_call;
use crate::call::Call;
use crate::halt::Halt;
use crate::trace::Check;
use fed_base::{Duplicate, Ledger, Memory, Text};
use sealed::Sealed;
use statement_shelf::ShelfCall;
use std::alloc::Global;
use std::sync::Wait;

// The pair of a check, where it is good and of this text.
fn good_seal(alloc: Global, check: &Check, text: &Text) -> Result<Option<Sealed>, Memory>
    requires { IsAnswer (pair_in check.now) check.now.good }
    ensures { IfOk result (IsGoodSeal check.now text.now) }
{
    if check.good && check.text.as_slice() == text.as_slice() {
        Ok(Some(Sealed::known(alloc, &check.text, check.public)?))
    } else {
        Ok(None)
    }
}

// Proves the pair of a check under the URL, where it is good and of this text.
fn prove_check<R: Wait, G: Ledger>(
    call: &mut Call<'_, R, G>,
    at: usize,
    url: &Text,
    text: &Text,
) -> Result<(), Halt>
    requires of { HasPass call.old }
    requires within { at < length call.old.trace.now.checks }
    requires answers { AnswersStand call.old.trace.now.checks }
    ensures uses { UsesCache call.old call.new result }
    ensures ok { OnOk result (ProvesAt call.old.trace.now.checks at url.now text.now call.old.trace.now.events call.new.trace.now.events) }
    ensures err { OnErr result (call.new.trace.now.events ≡ call.old.trace.now.events) }
{
    match good_seal(call.alloc, &call.trace.checks.as_slice()[at], text)? {
        Some(seal) => {
            let url = url.copy(call.alloc)?;
            let proving = ShelfCall::Prove { url, seal };
            record_call(
                call.commons,
                call.rt,
                call.alloc,
                call.pass,
                &mut call.trace.events,
                proving,
            )
        }
        None => Ok(()),
    }
}

// Proves under the URL each pair of the text that was tested and is good.
pub(crate) fn prove_tested<R: Wait, G: Ledger>(
    call: &mut Call<'_, R, G>,
    url: &Text,
    text: &Text,
) -> Result<(), Halt>
    requires of { HasPass call.old }
    requires answers { AnswersStand call.old.trace.now.checks }
    ensures uses { UsesCache call.old call.new result }
    ensures only { AddsProves call.old.trace.now.checks call.old.trace.now.events call.new.trace.now.events }
    ensures proved { OnOk result (ProvesEach call.old.trace.now.checks url.now text.now call.old.trace.now.events call.new.trace.now.events) }
{
    let count = call.trace.checks.len();
    for at in 0..count {
        prove_check(call, at, url, text)?;
    }
    Ok(())
}
