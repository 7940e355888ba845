// What is told of a resolver's reply.

ghost use Rattle.std.specs.Prelude.{◌≡◌, ◌≤◌, ℕ, List, Option, IfOk, MatchResult, option_map};
ghost use Rattle.cli_commands.specs.Answers.{StopsAs};
ghost use Rattle.reply_check.specs.Verdicts.{case_of};
ghost use Rattle.cli_inspect.specs.ReplyChecks.{IsInputReport, IsKeysOf, IsReplyReport, keys_of_file};
ghost use Rattle.jwk_set.specs.declared.set.JwkSet.{JwkSet as Keys};
ghost use Rattle.cli_rings.specs.RingFiles.{IsFileOf};

use crate::reporting::{By, report};
use cli_commands::{Stop, load_file, read_keys, read_text};
use cli_rings::{File, Reply, plain};
use cli_words::ReplyAsked;
use fed_ports::{Memory, OpensLedgers, Source, Store, Text};
use file_notes::{explain_absent_file, explain_keys_file, explain_long_file, explain_long_input};
use jwk_set::JwkSet;
use plain_notes::Notes;
use std::alloc::Global;

/// The reply that tells of the resolver's reply in the input, at a moment in seconds since 1970.
pub(crate) fn check_reply<R: OpensLedgers, S: Source, D: Store>(
    rt: &R,
    alloc: Global,
    asked: &ReplyAsked,
    moment: u64,
    input: &mut S,
    store: &mut D,
    notes: &mut Notes,
) -> Result<Reply, Stop>
    ensures files { D.files store.new ≡ D.files store.old }
    ensures steady { MatchResult result
        (λ reply. (S.read_faults input.new ≡ S.read_faults input.old) × (D.store_faults store.new ≡ D.store_faults store.old))
        (λ stop. StopsAs stop (S.read_faults input.old) (S.read_faults input.new) (D.store_faults store.old) (D.store_faults store.new)) }
    ensures reply { IfOk result (IsReplyReport (D.files store.old) asked.now moment (S.left input.old) (S.left input.new)) }
    ensures small { IfOk result (λ reply. reply.status ≤ 2) }
{
    let resolver = keys_of_file(alloc, &asked.keys_file, store, notes)?;
    let keys = keys_of_file(alloc, &asked.anchor_keys_file, store, notes)?;
    match (&resolver, &keys) {
        (Some(resolver), Some(keys)) => {
            let by = By {
                resolver,
                anchor: &asked.anchor,
                keys,
                moment,
            };
            report_on(rt, alloc, &by, input, notes)
        }
        _ => Ok(plain(alloc, 2, b"input\n")?),
    }
}

// The keys of the file of that name, or `None` where it isn't a key set.
fn keys_of_file<D: Store>(
    alloc: Global,
    name: &Text,
    store: &mut D,
    notes: &mut Notes,
) -> Result<Option<JwkSet>, Stop>
    ensures files { D.files store.new ≡ D.files store.old }
    ensures steady { (source : ℕ) → MatchResult result (λ keys. D.store_faults store.new ≡ D.store_faults store.old)
        (λ stop. StopsAs stop source source (D.store_faults store.old) (D.store_faults store.new)) }
    ensures keys { IfOk result (λ keys. IsKeysOf (D.files store.old) name.now (option_map (λ (set : Keys). set.keys) keys)) }
{
    let file = load_file(alloc, name, store, notes)?;
    Ok(keys_in(alloc, name, &file, notes)?)
}

// The keys of a file.
fn keys_in(
    alloc: Global,
    name: &Text,
    file: &File,
    notes: &mut Notes,
) -> Result<Option<JwkSet>, Memory>
    ensures { (bytes : Option (List ℕ)) → IsFileOf file.now bytes → IfOk result (λ keys. option_map (λ (set : Keys). set.keys) keys ≡ keys_of_file bytes) }
{
    match file {
        File::Absent => {
            explain_absent_file(alloc, name, notes);
            Ok(None)
        }
        File::TooLong => {
            explain_long_file(alloc, name, notes);
            Ok(None)
        }
        File::Whole(bytes) => {
            let keys = read_keys(alloc, bytes.as_slice())?;
            if keys.is_none() {
                explain_keys_file(alloc, name, bytes.as_slice(), notes);
            }
            Ok(keys)
        }
    }
}

// The reply that tells of the input by these keys.
fn report_on<R: OpensLedgers, S: Source>(
    rt: &R,
    alloc: Global,
    by: &By<'_>,
    input: &mut S,
    notes: &mut Notes,
) -> Result<Reply, Stop>
    ensures steady { (store : ℕ) → MatchResult result (λ reply. S.read_faults input.new ≡ S.read_faults input.old)
        (λ stop. StopsAs stop (S.read_faults input.old) (S.read_faults input.new) store store) }
    ensures reply { IfOk result (IsInputReport (λ text. case_of text by.now.resolver.now.keys by.now.anchor.now by.now.keys.now.keys by.now.moment)
        (S.left input.old) (S.left input.new)) }
    ensures small { IfOk result (λ reply. reply.status ≤ 2) }
{
    match read_text(alloc, input, notes)? {
        Some(text) => Ok(report(rt, alloc, text.as_slice(), by, notes)?),
        None => {
            explain_long_input(alloc, notes);
            Ok(plain(alloc, 2, b"input\n")?)
        }
    }
}
