// The check of a reply, condition by condition.

ghost use Rattle.std.specs.Prelude.{◌≡◌, ◌↔◌, IfOk, IsTrue};
ghost use Rattle.chain_check.specs.Validity.{case_of as chain_case};
ghost use Rattle.chain_check.specs.Verdicts.{IsVerdictOn as IsChainVerdict};
ghost use Rattle.chain_check.specs.declared.verdict.Verdict.TheVariants.{Valid};
ghost use Rattle.entity_statement.specs.Use.{current_at};
ghost use Rattle.fed_json.specs.Forms.{IsWhole};
ghost use Rattle.reply_check.specs.declared.verdict.ReplyVerdict.{ReplyVerdict as Answer};
ghost use Rattle.reply_check.specs.Stages.{CanEnd};
ghost use Rattle.reply_check.specs.Verdicts.{AnswersChain, AnswersMarks, AnswersSubject, CanBeTold, IsSound, IsVerdictOn, case_of, is_sound};

use crate::beside::said_fault;
use crate::claimed::Claimed;
use crate::looked::Looked;
use crate::marks::look_at_marks;
use crate::reading::read_reply;
use crate::sealing::is_signed;
use crate::verdict::{ReplyReason, ReplyVerdict};
use chain_check::{Resolved, Verdict, check_chain};
use entity_id::EntityId;
use fed_base::{Ledger, Memory, Steps};
use jwk_set::JwkSet;
use std::alloc::Global;

// How many seconds a reply may be issued after the moment at which it is looked at.
const LEEWAY: u64 = 60;

/// Whether a relying party can act on the text at a moment, in seconds since 1970, as a reply of the resolver with these keys: the text is
/// one, the resolver sealed it, and what it says is what its own chain says up to the trust anchor, under the anchor's keys, at the reply's
/// moment (OpenID Federation 1.0 sections 8.3 and 10.2). It answers what the reply claims, or the first reason against it, in the order of
/// [`ReplyReason`].
pub fn check_reply<L: Ledger>(
    alloc: Global,
    text: &[u8],
    resolver: &JwkSet,
    anchor: &EntityId,
    keys: &JwkSet,
    t: u64,
    steps: &mut Steps<L>,
) -> Result<ReplyVerdict, Memory>
    ensures verdict { IfOk result (IsVerdictOn (case_of text.now resolver.now.keys anchor.now keys.now.keys t)) }
    // It is sound exactly where each condition holds.
    ensures only { IfOk result (λ verdict. IsTrue (is_sound verdict) ↔ IsSound (case_of text.now resolver.now.keys anchor.now keys.now.keys t)) }
    // A text has one verdict.
    ensures one { IfOk result (λ verdict. (other : Answer)
        → IsVerdictOn (case_of text.now resolver.now.keys anchor.now keys.now.keys t) other → other ≡ verdict) }
    ensures written { IfOk result CanBeTold }
{
    checked(alloc, text, resolver, anchor, keys, t, steps)
}

fn checked<L: Ledger>(
    alloc: Global,
    text: &[u8],
    resolver: &JwkSet,
    anchor: &EntityId,
    keys: &JwkSet,
    t: u64,
    steps: &mut Steps<L>,
) -> Result<ReplyVerdict, Memory>
    ensures verdict { IfOk result (IsVerdictOn (case_of text.now resolver.now.keys anchor.now keys.now.keys t)) }
    ensures written { IfOk result CanBeTold }
{
    let Some(signed) = read_reply(alloc, text)? else {
        return Ok(ReplyVerdict::Refused(ReplyReason::Form));
    };
    if !is_signed(&signed.compact, resolver, steps) {
        return Ok(ReplyVerdict::Refused(ReplyReason::Signature));
    }
    checked_chain(alloc, signed.claims, anchor, keys, t, steps)
}

// The answer on a reply that is sealed by the resolver.
fn checked_chain<L: Ledger>(
    alloc: Global,
    claimed: Claimed,
    anchor: &EntityId,
    keys: &JwkSet,
    t: u64,
    steps: &mut Steps<L>,
) -> Result<ReplyVerdict, Memory>
    ensures verdict { IfOk result (AnswersChain (chain_case claimed.said.chain anchor.now keys.now.keys claimed.said.iat) claimed t) }
    ensures written { IsWhole claimed.said.metadata → IfOk result CanBeTold }
{
    let said = &claimed.said;
    match check_chain(alloc, &said.chain, anchor, keys, said.iat, steps)? {
        Verdict::Valid(resolved) => {
            let verdict = checked_beside(alloc, claimed, &resolved, t, steps);
            drop(resolved);
            verdict
        }
        Verdict::Refused { place, reason } => {
            Ok(ReplyVerdict::Refused(ReplyReason::Chain { place, reason }))
        }
    }
}

// The answer on a reply whose chain resolves to this.
fn checked_beside<L: Ledger>(
    alloc: Global,
    claimed: Claimed,
    resolved: &Resolved,
    t: u64,
    steps: &mut Steps<L>,
) -> Result<ReplyVerdict, Memory>
    requires { CanEnd claimed.said.chain }
    ensures verdict { IfOk result (AnswersSubject claimed resolved.now t) }
    ensures written { IsWhole claimed.said.metadata → IfOk result CanBeTold }
{
    match said_fault(&claimed.said, resolved) {
        Some(reason) => Ok(ReplyVerdict::Refused(reason)),
        None => checked_marks(alloc, claimed, t, steps),
    }
}

// The answer on a reply that says what its chain says.
fn checked_marks<L: Ledger>(
    alloc: Global,
    claimed: Claimed,
    t: u64,
    steps: &mut Steps<L>,
) -> Result<ReplyVerdict, Memory>
    requires { CanEnd claimed.said.chain }
    ensures verdict { IfOk result (AnswersMarks claimed t) }
    ensures written { IsWhole claimed.said.metadata → IfOk result CanBeTold }
{
    match look_at_marks(alloc, &claimed.said, steps)? {
        Looked::Flawed(at) => Ok(ReplyVerdict::Refused(ReplyReason::Mark {
            place: at.place,
            flaw: at.flaw,
        })),
        Looked::Stand(checked) => if is_current(claimed.said.iat, claimed.said.exp, t) {
            Ok(ReplyVerdict::Sound { claimed, checked })
        } else {
            Ok(ReplyVerdict::Refused(ReplyReason::Times))
        },
    }
}

// Whether it was issued at the latest a minute after the moment, and hasn't ended at it.
fn is_current(iat: u64, exp: u64, t: u64) -> bool
    ensures { result ≡ current_at iat exp t }
{
    iat <= t.saturating_add(LEEWAY) && t < exp
}
