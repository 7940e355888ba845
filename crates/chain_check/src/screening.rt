// Chains up to their signatures.

ghost use Rattle.std.specs.Prelude.{IfOk};
ghost use Rattle.chain_check.specs.declared.screened.Screened.TheVariants.{Candidate, Refused};
ghost use Rattle.chain_check.specs.Judging.{texts_of};
ghost use Rattle.chain_check.specs.Screening.{IfRefused, IsScreening};
ghost use Rattle.chain_check.specs.Stages.{Passes};
ghost use Rattle.chain_check.specs.Verdicts.{CanBeWritten};

use crate::names::check_names;
use crate::reading::read_chain;
use crate::screened::Screened;
use crate::signatures::check_times;
use crate::stop::Stop;
use crate::tried::Tried;
use entity_id::EntityId;
use entity_statement::SignedStatement;
use fed_base::{Memory, Seq};
use std::alloc::Global;

/// What [`check_chain`](crate::check_chain) finds before it looks at signatures: the chain's statements, each read once, or the first
/// failure. [`judge_candidate`](crate::judge_candidate) goes on from there. `t` is in seconds since 1970.
pub fn screen(
    alloc: Global,
    chain: &Seq<Tried>,
    anchor: &EntityId,
    t: u64,
) -> Result<Screened, Memory>
    ensures screening { IfOk result (IsScreening (texts_of chain.now) anchor.now t) }
    ensures written { IfOk result (λ screened. IfRefused screened CanBeWritten) }
{
    match screened(alloc, chain.as_slice(), anchor, t) {
        Ok(entries) => Ok(Screened::Candidate(entries)),
        Err(Stop::Refused { place, reason }) => Ok(Screened::Refused { place, reason }),
        Err(Stop::Memory) => Err(Memory),
    }
}

fn screened(
    alloc: Global,
    chain: &[Tried],
    anchor: &EntityId,
    t: u64,
) -> Result<Seq<SignedStatement>, Stop>
    ensures screening { Passes result (λ entries. IsScreening (texts_of chain.now) anchor.now t (Candidate entries))
        (λ place reason. IsScreening (texts_of chain.now) anchor.now t (Refused place reason)) }
    ensures written { Passes result (λ entries. Unit {0}) (λ place reason. IfRefused (Refused place reason) CanBeWritten) }
{
    let entries = read_chain(alloc, chain)?;
    check_names(entries.as_slice(), anchor)?;
    check_times(entries.as_slice(), t)?;
    Ok(entries)
}
