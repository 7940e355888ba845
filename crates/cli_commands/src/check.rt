// The reply of `check`, and what it is given: the keys of a trust anchor, and the texts of a chain.

ghost use Rattle.std.specs.Prelude.{◌≡◌, None, Some, IfOk, option_map};
ghost use Rattle.cli_commands.specs.Checks.{IsChecked, chain_in, keys_in};

use crate::check_lines::{status, verdict_lines};
use chain_check::check_chain;
use chain_notes::{Asked, explain_verdict};
use cli_rings::{Reply, plain};
use entity_id::EntityId;
use fed_json::{TreeFault, copied_texts, read_tree};
use fed_ports::{Memory, OpensLedgers, Plain, Seq, Steps, Text};
use file_notes::explain_unless_list;
use jwk_set::{JwkSet, SetFault};
use plain_notes::Notes;
use std::alloc::Global;

/// What is found of the chain in the input, for the anchor with these keys at the moment `t` (seconds since 1970).
pub fn check<R: OpensLedgers>(
    rt: &R,
    alloc: Global,
    anchor: &EntityId,
    keys: &JwkSet,
    t: u64,
    input: Text,
    notes: &mut Notes,
) -> Result<Reply, Memory>
    ensures checked { IfOk result (λ reply. IsChecked anchor.now t (Some keys.now.keys) (chain_in input) reply.status reply.text) }
    ensures kept { IfOk result (λ reply. reply.kept ≡ None) }
{
    let Some(chain) = read_chain(alloc, input, notes)? else {
        return plain(alloc, 2, b"input\n");
    };
    let mut steps = Steps {
        ledger: Plain::new(rt),
    };
    let verdict = check_chain(alloc, &chain, anchor, keys, t, &mut steps)?;
    let asked = Asked {
        anchor,
        keys,
        moment: t,
    };
    explain_verdict(alloc, &chain, &asked, &verdict, notes);
    drop(chain);
    let status = status(&verdict);
    let text = verdict_lines(alloc, &verdict);
    drop(verdict);
    Ok(Reply {
        status,
        text: text?,
        kept: None,
    })
}

/// The keys of a file that is a key set in JSON (RFC 7517 section 5), or `None` where it is none.
pub fn read_keys(alloc: Global, file: &[u8]) -> Result<Option<JwkSet>, Memory>
    ensures { IfOk result (λ read. option_map (λ set. set.keys) read ≡ keys_in file.now) }
{
    let tree = match read_tree(alloc, file) {
        Ok(tree) => tree,
        Err(TreeFault::Syntax) => return Ok(None),
        Err(TreeFault::Memory) => return Err(Memory),
    };
    let read = JwkSet::read(alloc, &tree);
    drop(tree);
    match read {
        Ok(keys) => Ok(Some(keys)),
        Err(SetFault::Memory) => Err(Memory),
        Err(_) => Ok(None),
    }
}

// The texts of an input that is a JSON list of texts, the leaf's first, or `None` where it is none.
fn read_chain(alloc: Global, input: Text, notes: &mut Notes) -> Result<Option<Seq<Text>>, Memory>
    ensures { IfOk result (λ read. read ≡ chain_in input) }
{
    let read = read_tree(alloc, input.as_slice());
    explain_unless_list(alloc, input.as_slice(), &read, notes);
    match read {
        Ok(tree) => copied_texts(alloc, &tree),
        Err(TreeFault::Syntax) => Ok(None),
        Err(TreeFault::Memory) => Err(Memory),
    }
}
