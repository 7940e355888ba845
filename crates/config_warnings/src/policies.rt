// Policies: operators that aren't known, and two that don't stand together.

ghost use Rattle.std.specs.Prelude.{◌≡◌, ◌++◌, OnOk};
ghost use Rattle.fed_base.specs.Answers.{unless};
ghost use Rattle.fed_json.specs.Forms.{IsWellFormed};
ghost use Rattle.policy_merge.specs.Combining.{Gives};
ghost use Rattle.config_warnings.specs.Trees.{clash_at, clash_of, of_policy, unknown_of_type, unknown_operators};

use crate::members::unknown_under;
use crate::part::Part;
use crate::places::under;
use crate::warning::{Kind, Warning, warn};
use fed_base::{Memory, Seq};
use fed_json::{Json, Member, object_members};
use policy_merge::{Policy, PolicyFault, PolicyShape};
use std::alloc::Global;

/// Warns of what is wrong in a policy (OpenID Federation 1.0 section 6.1).
#[tactic(auto, unfolding(crate::specs::Trees::of_policy))]
pub(crate) fn of_policy(
    alloc: Global,
    out: &mut Seq<Warning>,
    place: &[u8],
    tree: &Json,
) -> Result<(), Memory>
    requires { IsWellFormed tree.now }
    ensures { OnOk result (out.new ≡ out.old ++ of_policy place.now tree.now) }
{
    unknown_operators(alloc, out, place, tree)?;
    clash_of(alloc, out, place, tree)
}

fn unknown_operators(
    alloc: Global,
    out: &mut Seq<Warning>,
    place: &[u8],
    tree: &Json,
) -> Result<(), Memory>
    ensures { OnOk result (out.new ≡ out.old ++ unknown_operators place.now tree.now) }
{
    for member in object_members(tree) {
        unknown_of_type(alloc, out, place, member)?;
    }
    Ok(())
}

fn unknown_of_type(
    alloc: Global,
    out: &mut Seq<Warning>,
    place: &[u8],
    member: &Member,
) -> Result<(), Memory>
    ensures { OnOk result (out.new ≡ out.old ++ unknown_of_type place.now member.now) }
{
    let place = under(alloc, place, member.name.as_slice())?;
    unknown_under(alloc, out, Part::Operators, place.as_slice(), &member.value)
}

fn clash_of(alloc: Global, out: &mut Seq<Warning>, place: &[u8], tree: &Json) -> Result<(), Memory>
    requires { IsWellFormed tree.now }
    ensures { OnOk result (out.new ≡ out.old ++ clash_of place.now tree.now) }
{
    match Policy::read(alloc, tree) {
        Ok(policy) => {
            let combined = policy.combined(alloc);
            drop(policy);
            clash_at(alloc, out, place, combined)
        }
        Err(PolicyShape::Shape) => Ok(()),
        Err(PolicyShape::Memory) => Err(Memory),
    }
}

// Warns of the conflict, where there is one.
#[tactic(auto, using(crate::proofs::Gathering::unless_failed, crate::proofs::Gathering::unless_done))]
fn clash_at(
    alloc: Global,
    out: &mut Seq<Warning>,
    place: &[u8],
    combined: Result<(), PolicyFault>,
) -> Result<(), Memory>
    ensures { (named : _) → Gives combined (unless named tt) → OnOk result (out.new ≡ out.old ++ clash_at place.now named) }
{
    match combined {
        Ok(()) => Ok(()),
        Err(PolicyFault::Memory) => Err(Memory),
        Err(
            PolicyFault::Conflict {
                entity_type,
                parameter,
                first,
                second,
            },
        ) => {
            let place = under(alloc, place, entity_type.as_slice())?;
            let place = under(alloc, place.as_slice(), parameter.as_slice())?;
            warn(
                alloc,
                out,
                Kind::Clash(first, second),
                place.as_slice(),
                b"",
            )
        }
    }
}
