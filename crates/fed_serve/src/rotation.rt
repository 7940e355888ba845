// What a resolver answers to other keys for a trust anchor.

ghost use Rattle.jws_form.specs.Compact.{IsCompact};
ghost use Rattle.turn_log.specs.Groups.{known};
ghost use Rattle.statement_shelf.specs.Passes.{IsPassOfAll};
ghost use Rattle.resolve_round.specs.Acts.{IsKept};
ghost use Rattle.fed_serve.specs.Rotations.{ChangesKeys, IsRotateAnswer, IsUnsealedAnswer, rotation_at};

use crate::bodies::{not_in_control, replied};
use crate::context::Context;
use crate::part::ResolverPart;
use fed_base::{Ledger, Memory, Steps};
use http_plain::Response;
use node_requests::AnchorChange;
use sealed::{SealFault, check_sealed};
use statement_shelf::{BookCall, Commons, FedPass};
use std::alloc::Global;
use std::sync::Wait;
use turn_log::Worn;

// Asks the book to change the keys.
fn change_keys<R: Wait>(
    commons: &Commons,
    context: &Context<'_, R>,
    pass: &mut FedPass,
    change: AnchorChange,
) -> Result<Result<Response, Memory>, Worn>
    requires of { IsPassOfAll commons.now pass.old }
    ensures kept { IsKept commons.now pass.old pass.new }
    ensures changes { ChangesKeys change (known pass.old) (known pass.new) result }
{
    let AnchorChange {
        body,
        anchor,
        epoch,
        keys,
    } = change;
    drop(body);
    let call = BookCall::Rotate {
        anchor,
        from: epoch,
        keys,
    };
    let reply = commons.book(context.rt, context.alloc, pass, call)?;
    Ok(replied(context.alloc, &reply))
}

/// The response to other keys for a trust anchor: the book is asked to change them where the body is sealed by a control key, which one
/// test shows. `Worn` comes where the book had counted 2^62 calls.
pub fn answer_rotation<R: Wait, G: Ledger>(
    part: &ResolverPart,
    context: &Context<'_, R>,
    pass: &mut FedPass,
    change: AnchorChange,
    steps: &mut Steps<G>,
) -> Result<Result<Response, Memory>, Worn>
    requires of { IsPassOfAll part.now.commons pass.old }
    requires compact { IsCompact change.body.whole change.body }
    ensures kept { IsKept part.now.commons pass.old pass.new }
    ensures answer { IsRotateAnswer part.now.control.keys change
        (rotation_at (known pass.old) (G.count steps.old.ledger)) (rotation_at (known pass.new) (G.count steps.new.ledger)) result }
{
    match check_sealed(context.alloc, &change.body, &part.control, steps) {
        Ok(seal) => {
            drop(seal);
            change_keys(&part.commons, context, pass, change)
        }
        Err(fault) => {
            drop(change);
            Ok(unsealed(context.alloc, &fault))
        }
    }
}

// The answer where the body wasn't found to be sealed by a control key.
fn unsealed(alloc: Global, fault: &SealFault) -> Result<Response, Memory>
    ensures { IsUnsealedAnswer fault.now result }
{
    match fault {
        SealFault::Memory => Err(Memory),
        SealFault::NoKid | SealFault::NoKey | SealFault::BadSignature => not_in_control(alloc),
    }
}
