// From a command to its reply: the file that it names, and then its input.

ghost use Rattle.std.specs.Prelude.{◌≡◌, ◌≤◌, ℕ, List, None, Option, MatchResult, false, IfErr, IfOk, OnOk};
ghost use Rattle.std.specs.Option.{option_copied};
ghost use Rattle.fed_ports.specs.Causes.{HasCause};
ghost use Rattle.fed_ports.specs.Stores.{IsFile};
ghost use Rattle.cli_commands.specs.Answers.{named, text_of, wants_input, MayBe, IsNamed, IsRead, IsReached, IsKeptAs, StopsAs, IsTextRead};
ghost use Rattle.cli_commands.specs.Sealings.{RepliesSealed};
ghost use Rattle.cli_commands.specs.Streams.{without_line_end};
ghost use Rattle.cli_rings.specs.RingFiles.{IsFileOf};

use crate::operation::{Prepared, perform, prepare};
use cli_rings::{File, Reply};
use cli_words::Command;
use fed_ports::{Failed, Memory, OpensLedgers, ReadEnd, Source, Store, StoreFault, Text, read_all};
use file_notes::explain_migration;
use plain_notes::{Notes, explain_source, explain_unkept_file, explain_unread_file};
use ring_faults::is_old_ring;
use std::alloc::Global;
use std::thread::Threads;

/// Why there is no reply.
#[derive(Clone, Copy, Debug, PartialEq, Eq)]
pub enum Stop {
    /// The source failed.
    Source,
    /// The store failed.
    Store,
    /// Memory was wanting.
    Memory,
}

impl From<Memory> for Stop {
    ghost use Rattle.cli_commands.specs.declared.answer.Stop.TheVariants.{Memory as WantOfMemory};

    ghost from_gives = { λ _ stop. stop ≡ WantOfMemory };

    fn from(_: Memory) -> Stop {
        Stop::Memory
    }
}

// The name of the file that the command looks at or keeps.
fn named(command: &Command) -> Option<&Text>
    ensures { option_copied result ≡ named command.now }
{
    match command {
        Command::Keygen { ring_file, .. }
        | Command::Issue { ring_file, .. }
        | Command::Rotate { ring_file, .. } => Some(ring_file),
        Command::Check { keys_file, .. } => Some(keys_file),
        Command::Verify(_) | Command::Help | Command::Version | Command::Faulty => None,
    }
}

// The file that the command names.
fn load<D: Store>(
    alloc: Global,
    command: &Command,
    store: &mut D,
    notes: &mut Notes,
) -> Result<File, Stop>
    ensures files { D.files store.new ≡ D.files store.old }
    ensures steady { OnOk result (D.store_faults store.new ≡ D.store_faults store.old) }
    ensures found { IfOk result (λ file. (bytes : Option (List ℕ)) × IsNamed command.now (D.files store.old) bytes × IsFileOf file bytes) }
    ensures stops { IfErr result (λ stop. (source : ℕ) → StopsAs stop source source (D.store_faults store.old) (D.store_faults store.new)) }
    ensures apart { named command.now ≡ None → store.new ≡ store.old }
{
    match named(command) {
        Some(name) => load_file(alloc, name, store, notes),
        None => Ok(File::Absent),
    }
}

/// The file of that name. No file is changed.
pub fn load_file<D: Store>(
    alloc: Global,
    name: &Text,
    store: &mut D,
    notes: &mut Notes,
) -> Result<File, Stop>
    ensures files { D.files store.new ≡ D.files store.old }
    ensures steady { OnOk result (D.store_faults store.new ≡ D.store_faults store.old) }
    ensures found { IfOk result (λ file. (bytes : Option (List ℕ)) × IsFile (D.files store.old) name.now bytes × IsFileOf file bytes) }
    ensures stops { IfErr result (λ stop. (source : ℕ) → StopsAs stop source source (D.store_faults store.old) (D.store_faults store.new)) }
{
    match store.load(alloc, name) {
        Ok(Some(bytes)) => Ok(File::Whole(bytes)),
        Ok(None) => Ok(File::Absent),
        Err(StoreFault::TooLong) => Ok(File::TooLong),
        Err(StoreFault::Failed) => {
            explain_unread_file(alloc, name, notes);
            Err(Stop::Store)
        }
        Err(StoreFault::Memory) => Err(Stop::Memory),
    }
}

/// The text of the input, without the one line end that may stand behind it, or `None` where it has more than 4,194,304 bytes.
pub fn read_text<S: Source>(
    alloc: Global,
    input: &mut S,
    notes: &mut Notes,
) -> Result<Option<Text>, Stop>
    ensures read { IfOk result (IsTextRead (S.left input.old) (S.left input.new) (S.read_faults input.old) (S.read_faults input.new)) }
    ensures stops { IfErr result (λ stop. (store : ℕ) → StopsAs stop (S.read_faults input.old) (S.read_faults input.new) store store) }
{
    match read_all(alloc, input) {
        Ok(bytes) => Ok(Some(without_line_end(bytes))),
        Err(ReadEnd::Failed) => {
            explain_source(alloc, notes);
            Err(Stop::Source)
        }
        Err(ReadEnd::TooLong) => Ok(None),
        Err(ReadEnd::Memory) => Err(Stop::Memory),
    }
}

// The bytes without the one LF or CR LF that may stand behind them.
fn without_line_end(mut bytes: Text) -> Text
    ensures { result ≡ without_line_end bytes }
{
    let end = if bytes.as_slice().ends_with(b"\r\n") {
        2
    } else if bytes.as_slice().ends_with(b"\n") {
        1
    } else {
        0
    };
    bytes.truncate(bytes.len() - end);
    bytes
}

/// The command's reply on its file and its input, at a moment in seconds since 1970, with what is said of it. No file is changed.
pub fn reply_to<R: Threads + OpensLedgers + Sync, S: Source, D: Store>(
    rt: &R,
    alloc: Global,
    command: &Command,
    moment: u64,
    input: &mut S,
    store: &mut D,
    notes: &mut Notes,
) -> Result<Reply, Stop>
    ensures files { D.files store.new ≡ D.files store.old }
    ensures steady { MatchResult result
        (λ reply. (S.read_faults input.new ≡ S.read_faults input.old) × (D.store_faults store.new ≡ D.store_faults store.old))
        (λ stop. StopsAs stop (S.read_faults input.old) (S.read_faults input.new) (D.store_faults store.old) (D.store_faults store.new)) }
    ensures reply { IfOk result (IsReached command.now moment (D.files store.old) (S.left input.old) (S.left input.new)) }
    ensures sealed { IfOk result (RepliesSealed command.now (D.files store.old)) }
    ensures input_apart { wants_input command.now ≡ false → input.new ≡ input.old }
    ensures store_apart { named command.now ≡ None → store.new ≡ store.old }
{
    let file = load(alloc, command, store, notes)?;
    let prepared = prepare(alloc, command, moment, &file, notes);
    let is_old = is_old(alloc, command, &file);
    drop(file);
    match prepared? {
        Prepared::Answered(reply) => {
            tell_of_version(alloc, command, is_old, &reply, notes);
            Ok(reply)
        }
        Prepared::WantsInput(operation) => {
            let text = read_text(alloc, input, notes)?;
            let reply = perform(rt, alloc, operation, text, notes)?;
            tell_of_version(alloc, command, is_old, &reply, notes);
            Ok(reply)
        }
    }
}

// Whether the command changes a ring whose file is of version 1.
fn is_old(alloc: Global, command: &Command, file: &File) -> bool {
    match (command, file) {
        (Command::Rotate { .. }, File::Whole(bytes)) => is_old_ring(alloc, bytes.as_slice()),
        _ => false,
    }
}

// Says that the ring's file, which was of version 1, is written in version 2, where the reply has a file to keep.
fn tell_of_version(
    alloc: Global,
    command: &Command,
    is_old: bool,
    reply: &Reply,
    notes: &mut Notes,
) {
    if is_old
        && reply.kept.is_some()
        && let Some(name) = named(command)
    {
        explain_migration(alloc, name, notes);
    }
}

/// Keeps the bytes, where there are some, as the file that the command names.
pub fn keep<D: Store>(
    alloc: Global,
    command: &Command,
    kept: Option<&Text>,
    store: &mut D,
    notes: &mut Notes,
) -> Result<(), Failed>
    ensures kept { IsKeptAs command.now (D.files store.old) (D.files store.new) (option_copied kept.entry) result }
    ensures cause { HasCause (D.store_faults store.old) (D.store_faults store.new) result }
    ensures apart { named command.now ≡ None → store.new ≡ store.old }
{
    match (named(command), kept) {
        (Some(name), Some(bytes)) => {
            let kept = store.keep(name, bytes.as_slice());
            if kept.is_err() {
                explain_unkept_file(alloc, name, notes);
            }
            kept
        }
        _ => Ok(()),
    }
}
