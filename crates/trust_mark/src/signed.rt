// What texts claim, with the parts that it was read from.

ghost use Rattle.std.specs.Prelude.{◌≡◌, IfOk, IfSome, None};
ghost use Rattle.std.specs.Result.{result_ok};
ghost use Rattle.jws_form.specs.Compact.{IsCompact};
ghost use Rattle.jws_form.specs.Splitting.{splitting};
ghost use Rattle.trust_mark.specs.Marks.{delegation_of, mark_of};
ghost use Rattle.trust_mark.specs.Signed.{IsReading, status_answer_of};
ghost use Rattle.trust_mark.specs.Stages.{Keeps};

use crate::both::both;
use crate::fault::MarkFault;
use crate::mark::{Mark, read_delegation};
use crate::status::StatusAnswer;
use fed_base::Memory;
use jws_form::{Compact, FormFault, split};
use std::alloc::Global;

/// What a compact text claims, and the parts of the text that it was read from.
#[derive(Drop)]
pub struct Signed<T> {
    /// The parts of the text.
    pub compact: Compact,
    /// What it claims.
    pub claims: T,
}

/// The mark that a compact text is (OpenID Federation 1.0 section 7.1), and `None` where it is none. Its signature isn't
/// looked at.
pub fn mark_of(alloc: Global, text: &[u8]) -> Result<Option<Mark>, Memory>
    ensures { IfOk result (λ mark. mark ≡ mark_of text.now) }
{
    match signed_mark(alloc, text)? {
        Some(signed) => Ok(Some(signed.claims)),
        None => Ok(None),
    }
}

/// The mark that the text is, and `None` where it is none.
#[tactic(auto, unfolding(crate::specs::Marks::mark_of))]
pub(crate) fn signed_mark(alloc: Global, text: &[u8]) -> Result<Option<Signed<Mark>>, Memory>
    ensures { IfOk result (IsReading mark_of text.now) }
{
    match parts(alloc, text)? {
        Some(compact) => {
            let read = Mark::read(alloc, &compact);
            kept(compact, read)
        }
        None => Ok(None),
    }
}

/// The delegation that the text is, and `None` where it is none.
#[tactic(auto, unfolding(crate::specs::Marks::delegation_of))]
pub(crate) fn signed_delegation(alloc: Global, text: &[u8]) -> Result<Option<Signed<Mark>>, Memory>
    ensures { IfOk result (IsReading delegation_of text.now) }
{
    match parts(alloc, text)? {
        Some(compact) => {
            let read = read_delegation(alloc, &compact);
            kept(compact, read)
        }
        None => Ok(None),
    }
}

/// The answer on a mark's status that a compact text is (section 8.4.2), and `None` where it is none. Its signature isn't
/// looked at.
#[tactic(auto, unfolding(crate::specs::Signed::status_answer_of))]
pub fn signed_answer(alloc: Global, text: &[u8]) -> Result<Option<Signed<StatusAnswer>>, Memory>
    ensures { IfOk result (IsReading status_answer_of text.now) }
{
    match parts(alloc, text)? {
        Some(compact) => {
            let read = StatusAnswer::read(alloc, &compact);
            kept(compact, read)
        }
        None => Ok(None),
    }
}

// What was read with the parts that it was read from, unless memory was wanting.
fn kept<T: Drop>(compact: Compact, read: Result<T, MarkFault>) -> Result<Option<Signed<T>>, Memory>
    ensures { Keeps compact read result }
{
    match both(compact, read) {
        Ok((compact, claims)) => Ok(Some(Signed { compact, claims })),
        Err(MarkFault::Memory) => Err(Memory),
        Err(_) => Ok(None),
    }
}

// The parts of a compact text, and `None` where it is none.
fn parts(alloc: Global, text: &[u8]) -> Result<Option<Compact>, Memory>
    ensures exact { IfOk result (λ compact. compact ≡ result_ok (splitting text.now)) }
    ensures found { IfOk result (λ compact. IfSome compact (IsCompact text.now)) }
{
    match split(alloc, text) {
        Ok(compact) => Ok(Some(compact)),
        Err(FormFault::Memory) => Err(Memory),
        Err(_) => Ok(None),
    }
}
