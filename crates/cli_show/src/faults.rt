// Why something isn't what it is to be, by name.

ghost use Rattle.std.specs.Prelude.{◌≡◌, ◌≢◌, ◌++◌, decimal, IfOk};
ghost use Rattle.trust_mark.specs.declared.fault.MarkFault.TheVariants.{Memory as WantOfMemory};
ghost use Rattle.cli_show.specs.Faults.{form_reason, mark_reason, set_reason, statement_reason};

use crate::lines::{append_counted, append_plain, append_quoted};
use entity_statement::StatementFault;
use fed_base::{Memory, Text};
use jwk_set::SetFault;
use jws_form::FormFault;
use std::alloc::Global;
use trust_mark::MarkFault;

/// Why a text isn't in compact form.
pub(crate) fn form_reason(alloc: Global, fault: FormFault) -> Result<Text, Memory>
    ensures { IfOk result (λ reason. reason ≡ form_reason fault) }
{
    match fault {
        FormFault::TooLong => Text::of(alloc, b"TooLong"),
        FormFault::Parts => Text::of(alloc, b"Parts"),
        FormFault::Base64(part) => counted(alloc, b"Base64 ", u64::from(part)),
        FormFault::Header => Text::of(alloc, b"Header"),
        FormFault::Crit => Text::of(alloc, b"Crit"),
        FormFault::Algorithm => Text::of(alloc, b"Algorithm"),
        FormFault::Memory => Err(Memory),
    }
}

/// Why a tree isn't a key set.
pub(crate) fn set_reason(alloc: Global, fault: SetFault) -> Result<Text, Memory>
    ensures { IfOk result (λ reason. reason ≡ set_reason fault) }
{
    match fault {
        SetFault::NotSet => Text::of(alloc, b"NotSet"),
        SetFault::Shape(place) => counted(alloc, b"Shape ", place),
        SetFault::DoubleKid(place) => counted(alloc, b"DoubleKid ", place),
        SetFault::Memory => Err(Memory),
    }
}

/// Why claims aren't those of an entity statement.
pub(crate) fn statement_reason(alloc: Global, fault: &StatementFault) -> Result<Text, Memory>
    ensures { IfOk result (λ reason. reason ≡ statement_reason fault.now) }
{
    match fault {
        StatementFault::Typ => Text::of(alloc, b"Typ"),
        StatementFault::Tree => Text::of(alloc, b"Tree"),
        StatementFault::Missing(claim) => named(alloc, b"Missing ", claim.as_slice()),
        StatementFault::Shape(claim) => named(alloc, b"Shape ", claim.as_slice()),
        StatementFault::Keys(fault) => {
            let reason = set_reason(alloc, *fault)?;
            named(alloc, b"Keys ", reason.as_slice())
        }
        StatementFault::Misplaced(claim) => named(alloc, b"Misplaced ", claim.as_slice()),
        StatementFault::Critical(name) => {
            let mut reason = Text::new(alloc);
            append_quoted(alloc, &mut reason, b"Critical ", name.as_slice())?;
            Ok(reason)
        }
        StatementFault::Memory => Err(Memory),
    }
}

/// Why claims aren't those of a trust mark, a delegation or a status.
pub(crate) fn mark_reason(alloc: Global, fault: &MarkFault) -> Result<Text, Memory>
    ensures reason { IfOk result (λ reason. reason ≡ mark_reason fault.now) }
    ensures other { IfOk result (λ reason. fault.now ≢ WantOfMemory) }
{
    match fault {
        MarkFault::Typ => Text::of(alloc, b"Typ"),
        MarkFault::Tree => Text::of(alloc, b"Tree"),
        MarkFault::Missing(claim) => named(alloc, b"Missing ", claim.as_slice()),
        MarkFault::Shape(claim) => named(alloc, b"Shape ", claim.as_slice()),
        MarkFault::Memory => Err(Memory),
    }
}

// A name and what it is about.
fn named(alloc: Global, name: &[u8], about: &[u8]) -> Result<Text, Memory>
    ensures { IfOk result (λ reason. reason ≡ name.now ++ about.now) }
{
    let mut reason = Text::new(alloc);
    append_plain(&mut reason, name, about)?;
    Ok(reason)
}

// A name and the place that it is about.
fn counted(alloc: Global, name: &[u8], place: u64) -> Result<Text, Memory>
    ensures { IfOk result (λ reason. reason ≡ name.now ++ decimal place) }
{
    let mut reason = Text::new(alloc);
    append_counted(alloc, &mut reason, name, place)?;
    Ok(reason)
}
