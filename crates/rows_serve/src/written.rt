// What was written to a peer.

ghost use Rattle.std.specs.Prelude.{IfOk};
ghost use Rattle.jws_form.specs.Compact.{IsCompact};

use crate::words::{add_number, add_word, show};
use fed_base::{Memory, OpensLedgers, Plain, Steps, Text};
use fed_serve::Node;
use jws_form::{Compact, FormFault, split};
use sealed::{Tested, test_key};
use std::alloc::Global;

// Of a longer payload the first bytes are shown, and how many there are.
const MOST: usize = 1000;

const FIRST: usize = 80;

/// Adds what was written, where anything was: its head with its line ends made visible, and its body.
pub(crate) fn add_written<R: OpensLedgers>(
    rt: &R,
    alloc: Global,
    out: &mut Text,
    node: &Node,
    bytes: &[u8],
) -> Result<(), Memory> {
    if bytes.is_empty() {
        return Ok(());
    }
    out.append(b" => ")?;
    match std::str::from_utf8(bytes) {
        Ok(text) => add_message(rt, alloc, out, node, text),
        Err(_) => out.append(b"no UTF-8"),
    }
}

fn add_message<R: OpensLedgers>(
    rt: &R,
    alloc: Global,
    out: &mut Text,
    node: &Node,
    text: &str,
) -> Result<(), Memory> {
    let Some((head, body)) = text.split_once("\r\n\r\n") else {
        return show(out, text.as_bytes());
    };
    show(out, head.as_bytes())?;
    out.append(b"\\r\\n\\r\\n")?;
    add_body(rt, alloc, out, node, body.as_bytes())
}

// Adds a body: of a signed text its type, its key, its payload, and whether the node's signer signed it, and any other as it stands.
fn add_body<R: OpensLedgers>(
    rt: &R,
    alloc: Global,
    out: &mut Text,
    node: &Node,
    body: &[u8],
) -> Result<(), Memory> {
    match parts(alloc, body) {
        Ok(compact) => add_signed(rt, alloc, out, node, &compact),
        Err(_) => add_word(out, body),
    }
}

fn parts(alloc: Global, text: &[u8]) -> Result<Compact, FormFault>
    ensures { IfOk result (λ compact. IsCompact compact.whole compact) }
{
    split(alloc, text)
}

fn add_signed<R: OpensLedgers>(
    rt: &R,
    alloc: Global,
    out: &mut Text,
    node: &Node,
    compact: &Compact,
) -> Result<(), Memory>
    requires { IsCompact compact.now.whole compact.now }
{
    add_some(out, &compact.typ)?;
    add_some(out, &compact.kid)?;
    add_payload(alloc, out, compact.payload.as_slice())?;
    add_seal(rt, alloc, out, node, compact)
}

fn add_some(out: &mut Text, text: &Option<Text>) -> Result<(), Memory> {
    match text {
        Some(text) => add_word(out, text.as_slice()),
        None => add_word(out, b"-"),
    }
}

fn add_payload(alloc: Global, out: &mut Text, payload: &[u8]) -> Result<(), Memory> {
    if payload.len() <= MOST {
        return add_word(out, payload);
    }
    add_word(out, payload.get(..FIRST).unwrap_or(payload))?;
    out.append(b"..")?;
    add_number(alloc, out, payload.len() as u64)
}

fn add_seal<R: OpensLedgers>(
    rt: &R,
    alloc: Global,
    out: &mut Text,
    node: &Node,
    compact: &Compact,
) -> Result<(), Memory>
    requires { IsCompact compact.now.whole compact.now }
{
    let mut steps = Steps {
        ledger: Plain::new(rt),
    };
    match test_key(alloc, compact, &node.registry.signer().public(), &mut steps)? {
        Tested::Yes(_) => add_word(out, b"signed"),
        Tested::No(_) => add_word(out, b"not signed"),
    }
}
