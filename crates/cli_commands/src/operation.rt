// What a command is once its file was looked at, and its reply on its input.

ghost use Rattle.std.specs.Prelude.{◌≡◌, IfOk, List, ℕ, Option, Some};
ghost use Rattle.key_ring.specs.Rings.{Ring};
ghost use Rattle.cli_commands.specs.Sealings.{IsSealedBySigner};
ghost use Rattle.cli_commands.specs.Operations.{IsCheckPrepared, IsKeygenPrepared, IsPerformed, IsPrepared, IsRingPrepared, issue_prepared, rotate_prepared};
ghost use Rattle.cli_rings.specs.Replies.{bad_input, plain};
ghost use Rattle.cli_rings.specs.RingFiles.{IsFileOf};

use crate::check::{check, read_keys};
use crate::verify::verify;
use cli_help::{HELP, VERSION};
use cli_rings::{
    File, Reply, add, explain_no_ring, issue, keygen, open_ring, plain, retire, revoke,
};
use cli_words::{Act, Command, Moment, TextType, moment_or};
use entity_id::EntityId;
use fed_ports::{Alg, Duplicate, Memory, OpensLedgers, Text};
use file_notes::{
    explain_absent_file, explain_existing_file, explain_keys_file, explain_long_file,
    explain_long_input, warn_of_ended_signer,
};
use jwk_set::JwkSet;
use key_ring::KeyRing;
use plain_notes::Notes;
use std::alloc::Global;
use std::thread::Threads;

/// What is done with an input.
#[derive(Drop)]
pub enum Operation {
    /// To check a configuration under this public key.
    Verify([u8; 32]),
    /// To make a ring file of a key of this algorithm, for these moments.
    Keygen {
        alg: Alg,
        at: Moment,
        exp: Moment,
    },
    /// To seal claims by the signer of this ring, as a text of this type, by so many workers.
    Issue {
        ring: KeyRing,
        typ: TextType,
        workers: u64,
    },
    /// To add a key of this algorithm to this ring, for these moments.
    Add {
        ring: KeyRing,
        alg: Alg,
        at: Moment,
        exp: Moment,
    },
    /// To check a chain for an anchor, under these keys, at this moment in seconds since 1970.
    Check {
        anchor: EntityId,
        keys: JwkSet,
        at: u64,
    },
}

/// A command whose file was looked at.
#[derive(Drop)]
pub enum Prepared {
    /// Its reply, for which no input is read.
    Answered(Reply),
    /// An input is wanted.
    WantsInput(Operation),
}

/// What the command makes of its file.
pub fn prepare(
    alloc: Global,
    command: &Command,
    moment: u64,
    file: &File,
    notes: &mut Notes,
) -> Result<Prepared, Memory>
    ensures { (bytes : Option (List ℕ)) → IsFileOf file.now bytes → IfOk result (IsPrepared command.now moment bytes) }
{
    match command {
        Command::Verify(key) => Ok(Prepared::WantsInput(Operation::Verify(*key))),
        Command::Keygen {
            ring_file,
            alg,
            at,
            exp,
        } => prepare_keygen(alloc, ring_file, *alg, *at, *exp, file, notes),
        Command::Issue {
            ring_file,
            typ,
            workers,
        } => prepare_issue(alloc, ring_file, *typ, *workers, file, notes),
        Command::Rotate { ring_file, act } => prepare_rotate(alloc, ring_file, act, file, notes),
        Command::Check {
            anchor,
            keys_file,
            at,
        } => prepare_check(
            alloc,
            anchor,
            keys_file,
            moment_or(*at, moment),
            file,
            notes,
        ),
        Command::Help => answered(alloc, 0, HELP),
        Command::Version => answered(alloc, 0, VERSION),
        Command::Faulty => answered(alloc, 2, b"words\n"),
    }
}

fn answered(alloc: Global, status: u8, text: &[u8]) -> Result<Prepared, Memory>
    ensures { IfOk result (λ prepared. prepared ≡ Prepared.Answered (plain status text.now)) }
{
    Ok(Prepared::Answered(plain(alloc, status, text)?))
}

// A key is made only where no file has the ring's name.
fn prepare_keygen(
    alloc: Global,
    name: &Text,
    alg: Alg,
    at: Moment,
    exp: Moment,
    file: &File,
    notes: &mut Notes,
) -> Result<Prepared, Memory>
    ensures { (bytes : Option (List ℕ)) → IsFileOf file.now bytes → IfOk result (IsKeygenPrepared alg at exp bytes) }
{
    match file {
        File::Absent => Ok(Prepared::WantsInput(Operation::Keygen { alg, at, exp })),
        File::TooLong | File::Whole(_) => {
            explain_existing_file(alloc, name, notes);
            answered(alloc, 1, b"refused Exists\n")
        }
    }
}

// What is answered where there is no ring.
fn no_ring(alloc: Global, name: &Text, file: &File, notes: &mut Notes) -> Result<Prepared, Memory>
    ensures { IfOk result (λ prepared. prepared ≡ Prepared.Answered bad_input) }
{
    explain_no_ring(alloc, name, file, notes);
    answered(alloc, 2, b"input\n")
}

// Claims are sealed by the signer of a ring.
fn prepare_issue(
    alloc: Global,
    name: &Text,
    typ: TextType,
    workers: u64,
    file: &File,
    notes: &mut Notes,
) -> Result<Prepared, Memory>
    ensures { (bytes : Option (List ℕ)) → IsFileOf file.now bytes → IfOk result (IsRingPrepared (issue_prepared typ workers) bytes) }
{
    match open_ring(alloc, file)? {
        Some(ring) => {
            warn_of_signer(alloc, name, &ring, notes);
            Ok(Prepared::WantsInput(Operation::Issue { ring, typ, workers }))
        }
        None => no_ring(alloc, name, file, notes),
    }
}

// Says where the signer of the ring has ended.
fn warn_of_signer(alloc: Global, name: &Text, ring: &KeyRing, notes: &mut Notes) {
    if let Ok(keys) = ring.terms(alloc) {
        warn_of_ended_signer(alloc, name, keys.as_slice(), notes);
    }
}

// A change is made of a ring.
fn prepare_rotate(
    alloc: Global,
    name: &Text,
    act: &Act,
    file: &File,
    notes: &mut Notes,
) -> Result<Prepared, Memory>
    ensures { (bytes : Option (List ℕ)) → IsFileOf file.now bytes → IfOk result (IsRingPrepared (rotate_prepared act.now) bytes) }
{
    match open_ring(alloc, file)? {
        Some(ring) => change(alloc, act, ring, notes),
        None => no_ring(alloc, name, file, notes),
    }
}

// The seeds of a new key are those of the input; another change wants none.
fn change(alloc: Global, act: &Act, ring: KeyRing, notes: &mut Notes) -> Result<Prepared, Memory>
    ensures { IfOk result (λ prepared. prepared ≡ rotate_prepared act.now (Some ring)) }
{
    match act {
        Act::Add { alg, at, exp } => Ok(Prepared::WantsInput(Operation::Add {
            ring,
            alg: *alg,
            at: *at,
            exp: *exp,
        })),
        Act::Retire(kid) => Ok(Prepared::Answered(retire(alloc, ring, kid, notes)?)),
        Act::Revoke { kid, at, reason } => {
            Ok(Prepared::Answered(revoke(alloc, ring, kid, *at, *reason, notes)?))
        }
    }
}

// A chain is checked under the keys of a file.
fn prepare_check(
    alloc: Global,
    anchor: &EntityId,
    name: &Text,
    at: u64,
    file: &File,
    notes: &mut Notes,
) -> Result<Prepared, Memory>
    ensures { (bytes : Option (List ℕ)) → IsFileOf file.now bytes → IfOk result (IsCheckPrepared anchor.now at bytes) }
{
    let File::Whole(bytes) = file else {
        return no_keys(alloc, name, file, notes);
    };
    match read_keys(alloc, bytes.as_slice())? {
        Some(keys) => Ok(Prepared::WantsInput(Operation::Check {
            anchor: anchor.copy(alloc)?,
            keys,
            at,
        })),
        None => no_keys(alloc, name, file, notes),
    }
}

// Says why the file isn't that of a key set.
fn explain_no_keys(alloc: Global, name: &Text, file: &File, notes: &mut Notes) {
    match file {
        File::Absent => explain_absent_file(alloc, name, notes),
        File::TooLong => explain_long_file(alloc, name, notes),
        File::Whole(bytes) => explain_keys_file(alloc, name, bytes.as_slice(), notes),
    }
}

// What is answered where there are no keys.
fn no_keys(alloc: Global, name: &Text, file: &File, notes: &mut Notes) -> Result<Prepared, Memory>
    ensures { IfOk result (λ prepared. prepared ≡ Prepared.Answered bad_input) }
{
    explain_no_keys(alloc, name, file, notes);
    answered(alloc, 2, b"input\n")
}

/// What is answered on the input, without its line end; an input that is too long is `None`. Claims and chains free its memory once they
/// are read from it.
pub fn perform<R: Threads + OpensLedgers + Sync>(
    rt: &R,
    alloc: Global,
    operation: Operation,
    input: Option<Text>,
    notes: &mut Notes,
) -> Result<Reply, Memory>
    ensures performed { IfOk result (IsPerformed operation input) }
    ensures sealed { (ring : Ring) (typ : TextType) (workers : ℕ) → operation ≡ Operation.Issue ring typ workers → IfOk result (IsSealedBySigner ring) }
{
    let Some(input) = input else {
        drop(operation);
        explain_long_input(alloc, notes);
        return plain(alloc, 2, b"input\n");
    };
    match operation {
        Operation::Verify(key) => verify(rt, alloc, &key, input.as_slice(), notes),
        Operation::Keygen { alg, at, exp } => {
            keygen(alloc, alg, at, exp, input.as_slice(), notes)
        }
        Operation::Issue { ring, typ, workers } => {
            issue(rt, alloc, ring.signer(), typ, workers, input, notes)
        }
        Operation::Add { ring, alg, at, exp } => add(
            alloc,
            ring,
            alg,
            at,
            exp,
            input.as_slice(),
            notes,
        ),
        Operation::Check { anchor, keys, at } => check(rt, alloc, &anchor, &keys, at, input, notes),
    }
}
