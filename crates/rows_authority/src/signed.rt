// Signed texts, taken apart.

ghost use Rattle.std.specs.Prelude.{IfOk};
ghost use Rattle.jws_form.specs.Compact.{IsCompact};

use crate::words::{add_number, add_word};
use authority_core::Registry;
use fed_base::{Memory, OpensLedgers, Plain, Steps, Text};
use jws_form::{Compact, FormFault, split};
use sealed::{Tested, test_key};
use std::alloc::Global;
use trust_mark::StatusAnswer;

fn parts(alloc: Global, text: &Text) -> Result<Compact, FormFault>
    ensures { IfOk result (λ compact. IsCompact compact.whole compact) }
{
    split(alloc, text.as_slice())
}

/// Adds the type of a signed text, its key, its payload, and whether the node's signer signed it.
pub(crate) fn add_text<R: OpensLedgers>(
    rt: &R,
    alloc: Global,
    out: &mut Text,
    node: &Registry,
    text: &Text,
) -> Result<(), Memory> {
    let Ok(compact) = parts(alloc, text) else {
        return add_word(out, b"no compact text");
    };
    add_header(out, &compact)?;
    add_word(out, compact.payload.as_slice())?;
    add_seal(rt, alloc, out, node, &compact)
}

/// Adds the same of an answer on a mark's status, with its issuer, its moment, the status, and whether it has the mark that was asked for
/// in place of its payload.
pub(crate) fn add_status<R: OpensLedgers>(
    rt: &R,
    alloc: Global,
    out: &mut Text,
    node: &Registry,
    text: &Text,
    mark: &Text,
) -> Result<(), Memory> {
    let Ok(compact) = parts(alloc, text) else {
        return add_word(out, b"no compact text");
    };
    add_header(out, &compact)?;
    add_answer(alloc, out, &compact, mark)?;
    add_seal(rt, alloc, out, node, &compact)
}

fn add_header(out: &mut Text, compact: &Compact) -> Result<(), Memory> {
    add_some(out, &compact.typ)?;
    add_some(out, &compact.kid)
}

fn add_some(out: &mut Text, text: &Option<Text>) -> Result<(), Memory> {
    match text {
        Some(text) => add_word(out, text.as_slice()),
        None => add_word(out, b"-"),
    }
}

fn add_seal<R: OpensLedgers>(
    rt: &R,
    alloc: Global,
    out: &mut Text,
    node: &Registry,
    compact: &Compact,
) -> Result<(), Memory>
    requires { IsCompact compact.now.whole compact.now }
{
    let mut steps = Steps {
        ledger: Plain::new(rt),
    };
    match test_key(alloc, compact, &node.signer().public(), &mut steps)? {
        Tested::Yes(_) => add_word(out, b"signed"),
        Tested::No(_) => add_word(out, b"not signed"),
    }
}

fn add_answer(alloc: Global, out: &mut Text, compact: &Compact, mark: &Text) -> Result<(), Memory> {
    let Ok(answer) = StatusAnswer::read(alloc, compact) else {
        return add_word(out, b"no answer");
    };
    add_word(out, answer.iss.text())?;
    add_number(alloc, out, answer.iat)?;
    add_word(out, answer.status.word())?;
    let same = answer.trust_mark.as_slice() == mark.as_slice();
    add_word(out, if same { b"same" } else { b"another" })
}
