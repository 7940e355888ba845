// The reply of `verify`.

ghost use Rattle.std.specs.Prelude.{IfOk};
ghost use Rattle.cli_commands.specs.Findings.{IsVerified};

use crate::verify_finding::{Finding, examine};
use cli_rings::Reply;
use fed_ports::{Memory, OpensLedgers};
use file_notes::explain_verify;
use plain_notes::Notes;
use std::alloc::Global;

/// What is found of a configuration under a public key.
pub fn verify<R: OpensLedgers>(
    rt: &R,
    alloc: Global,
    key: &[u8; 32],
    text: &[u8],
    notes: &mut Notes,
) -> Result<Reply, Memory>
    ensures { IfOk result (IsVerified key.now text.now) }
{
    let finding = examine(rt, alloc, key, text)?;
    explain_finding(alloc, key, &finding, text, notes);
    let status = finding.status();
    let text = finding.line(alloc);
    drop(finding);
    Ok(Reply {
        status,
        text: text?,
        kept: None,
    })
}

// Says why the text isn't valid.
fn explain_finding(
    alloc: Global,
    key: &[u8; 32],
    finding: &Finding,
    text: &[u8],
    notes: &mut Notes,
) {
    match finding {
        Finding::Valid(_) => {},
        Finding::Form | Finding::Names | Finding::Signature => {
            explain_verify(alloc, Some(key), text, notes);
        }
    }
}
