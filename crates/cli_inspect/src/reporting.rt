// What is told of a text as a reply.

ghost use Rattle.std.specs.Prelude.{◌≤◌, IfOk};
ghost use Rattle.reply_check.specs.Verdicts.{case_of};
ghost use Rattle.cli_inspect.specs.Reports.{IsReport};

use crate::lines::{status, verdict_lines};
use crate::reply_notes::explain_reply;
use cli_rings::Reply;
use entity_id::EntityId;
use fed_ports::{Memory, OpensLedgers, Plain, Steps};
use jwk_set::JwkSet;
use plain_notes::Notes;
use reply_check::check_reply;
use std::alloc::Global;

/// By what a text is checked as a reply.
#[derive(Clone, Copy)]
pub(crate) struct By<'a> {
    /// The keys of the resolver.
    pub(crate) resolver: &'a JwkSet,
    /// The trust anchor.
    pub(crate) anchor: &'a EntityId,
    /// The keys of the trust anchor.
    pub(crate) keys: &'a JwkSet,
    /// The moment, in seconds since 1970.
    pub(crate) moment: u64,
}

/// What is told of the text: status 0 where it can be acted on, with the entity, the end and the metadata, or 1 with the first reason
/// against it.
pub(crate) fn report<R: OpensLedgers>(
    rt: &R,
    alloc: Global,
    text: &[u8],
    by: &By<'_>,
    notes: &mut Notes,
) -> Result<Reply, Memory>
    ensures report { IfOk result (IsReport (case_of text.now by.now.resolver.now.keys by.now.anchor.now by.now.keys.now.keys by.now.moment)) }
    ensures small { IfOk result (λ reply. reply.status ≤ 2) }
{
    let mut steps = Steps {
        ledger: Plain::new(rt),
    };
    let verdict = check_reply(
        alloc,
        text,
        by.resolver,
        by.anchor,
        by.keys,
        by.moment,
        &mut steps,
    )?;
    explain_reply(alloc, &verdict, by, notes);
    let status = status(&verdict);
    let lines = verdict_lines(alloc, &verdict);
    drop(verdict);
    Ok(Reply {
        status,
        text: lines?,
        kept: None,
    })
}
