// Pages that are kept in the cache.

ghost use Rattle.std.specs.Prelude.{◌≡◌, true, OnOk};
ghost use Rattle.entity_statement.specs.Told.{told};
ghost use Rattle.resolve_round.specs.declared.trace.Search.{Search as AnySearch};
ghost use Rattle.resolve_round.specs.Calls.{HasPass, UsesCache};
ghost use Rattle.resolve_round.specs.Keeping.{AddsPuts, IsFetchedPage, kept_here, kept_new};
ghost use Rattle.resolve_round.specs.Knowing.{AnswersStand, HoldsSoFar, with_search};
ghost use Rattle.resolve_round.specs.Told.{ProvesGood};
ghost use Rattle.resolve_round.specs.Traces.{kept_until};

use crate::acts::record_call;
use crate::call::Call;
use crate::halt::Halt;
use crate::proving::prove_tested;
use entity_statement::SignedStatement;
use fed_base::{Duplicate, Ledger, Text};
use statement_shelf::ShelfCall;
use std::sync::Wait;

// Until when a page is kept: until it ends, or for the age from the moment on.
fn until(moment: u64, age: u64, exp: u64) -> u64
    ensures { result ≡ kept_until moment age exp }
{
    moment.saturating_add(age).min(exp)
}

// Keeps a page that was fetched, where it is current, for the age at most. What is known of its text is proved there.
pub(crate) fn keep<R: Wait, G: Ledger>(
    call: &mut Call<'_, R, G>,
    age: u64,
    url: &Text,
    signed: &SignedStatement,
) -> Result<(), Halt>
    requires of { HasPass call.old }
    requires answers { AnswersStand call.old.trace.now.checks }
    ensures uses { UsesCache call.old call.new result }
    ensures holds { (search : AnySearch) → IsFetchedPage call.old.trace.now search url.now signed.now.compact.whole (told signed.now.statement)
        → HoldsSoFar age search call.old.trace.now → HoldsSoFar age search call.new.trace.now }
    ensures good { OnOk result ((search : AnySearch) → IsFetchedPage call.old.trace.now search url.now signed.now.compact.whole (told signed.now.statement)
        → ProvesGood (with_search call.old.trace.now search) → ProvesGood (with_search call.new.trace.now search)) }
    ensures puts { OnOk result (AddsPuts (kept_here call.old.trace.now.moment age url.now signed.now.compact.whole (told signed.now.statement))
        call.old.trace.now.events call.new.trace.now.events) }
{
    if !signed.statement.is_current(call.trace.moment) {
        return Ok(());
    }
    let text = &signed.compact.whole;
    let putting = ShelfCall::Put {
        url: url.copy(call.alloc)?,
        text: text.copy(call.alloc)?,
        until: until(call.trace.moment, age, signed.statement.exp),
    };
    record_call(
        call.commons,
        call.rt,
        call.alloc,
        call.pass,
        &mut call.trace.events,
        putting,
    )?;
    prove_tested(call, url, text)
}

/// The same, where the page was fetched just now.
pub fn keep_new<R: Wait, G: Ledger>(
    call: &mut Call<'_, R, G>,
    age: u64,
    fresh: bool,
    url: &Text,
    signed: &SignedStatement,
) -> Result<(), Halt>
    requires of { HasPass call.old }
    requires answers { AnswersStand call.old.trace.now.checks }
    ensures uses { UsesCache call.old call.new result }
    ensures holds { (search : AnySearch)
        → (fresh ≡ true → IsFetchedPage call.old.trace.now search url.now signed.now.compact.whole (told signed.now.statement))
        → HoldsSoFar age search call.old.trace.now → HoldsSoFar age search call.new.trace.now }
    ensures good { OnOk result ((search : AnySearch)
        → (fresh ≡ true → IsFetchedPage call.old.trace.now search url.now signed.now.compact.whole (told signed.now.statement))
        → ProvesGood (with_search call.old.trace.now search) → ProvesGood (with_search call.new.trace.now search)) }
    ensures puts { OnOk result (AddsPuts (kept_new fresh call.old.trace.now.moment age url.now signed.now.compact.whole (told signed.now.statement))
        call.old.trace.now.events call.new.trace.now.events) }
{
    if fresh {
        keep(call, age, url, signed)
    } else {
        Ok(())
    }
}
