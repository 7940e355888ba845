// Rows of the commands.

use cli_commands::perform_command;
use cli_words::{Call, Command, read_call};
use fed_base::{Memory, OpensLedgers, Seq, Text};
use fed_ports::{MemoryClock, MemorySink, MemorySource, MemoryStore, NamedFile};
use plain_notes::Notes;
use std::alloc::Global;
use std::str;
use std::thread::Threads;

// The call that fails where none is to fail.
const NEVER: u64 = 99;

/// Which calls of the outside fail.
#[derive(Clone, Copy)]
pub struct Faults {
    /// The source's call of this number.
    source: u64,
    /// The sink's call of this number.
    sink: u64,
    /// Each call of the sink behind this many bytes.
    room: u64,
    /// The store's call of this number.
    store: u64,
    /// Whether a keeping that fails leaves the new file.
    leaves_new: bool,
}

/// The fault that a part spells: its place and its number.
pub fn faults_of(part: &str) -> Faults {
    let none = Faults {
        source: NEVER,
        sink: NEVER,
        room: 9000,
        store: NEVER,
        leaves_new: false,
    };
    let (place, number) = part.split_once(' ').unwrap_or((part, ""));
    let number = number.parse::<u64>().unwrap_or(NEVER);
    match place {
        "source" => Faults {
            source: number,
            ..none
        },
        "sink" => Faults {
            sink: number,
            ..none
        },
        "room" => Faults {
            room: number,
            ..none
        },
        "store" => Faults {
            store: number,
            ..none
        },
        "store-leaves-new" => Faults {
            store: number,
            leaves_new: true,
            ..none
        },
        _ => none,
    }
}

// The words of a line.
fn words_of(alloc: Global, line: &str) -> Result<Seq<Text>, Memory> {
    let mut words = Seq::new(alloc);
    for word in line.split(' ') {
        words.push(Text::of(alloc, word.as_bytes())?)?;
    }
    Ok(words)
}

// A store with this file under the name `r`, or with none where the part is empty.
fn store_of(alloc: Global, file: &str, faults: Faults) -> Result<MemoryStore, Memory> {
    let mut files = Seq::new(alloc);
    if !file.is_empty() {
        files.push(NamedFile {
            name: Text::of(alloc, b"r")?,
            bytes: Text::of(alloc, file.as_bytes())?,
        })?;
    }
    MemoryStore::new(alloc, files, 9000, faults.leaves_new, &[faults.store], 9)
}

fn printed(bytes: &[u8]) -> &str {
    str::from_utf8(bytes).unwrap_or("not UTF-8")
}

// The command that the words give.
fn command_of(alloc: Global, words: &Seq<Text>) -> Result<Command, Memory> {
    match read_call(alloc, words.as_slice())? {
        Call::Command(command) => Ok(command),
        Call::Inspection(_) | Call::Service(_) | Call::Registration(_) => Ok(Command::Faulty),
    }
}

// The status, what is written and the file `r` after the words' command.
fn ran<R: Threads + OpensLedgers + Sync>(
    rt: &R,
    alloc: Global,
    words: &Seq<Text>,
    input: &mut MemorySource,
    out: &mut MemorySink,
    store: &mut MemoryStore,
) -> Result<String, Memory> {
    let command = command_of(alloc, words)?;
    let mut clock = MemoryClock::new(alloc, &[])?;
    let mut notes = Notes::new(alloc, None);
    let status = perform_command(
        rt, alloc, &command, input, out, store, &mut clock, &mut notes,
    );
    drop(clock);
    let written = printed(out.as_slice());
    let kept = match store.file(b"r") {
        Some(file) => printed(file),
        None => "",
    };
    Ok(format!(in alloc; "{status} {written:?} {kept:?}")?)
}

// The same with a sink and a store of their own.
fn ran_from<R: Threads + OpensLedgers + Sync>(
    rt: &R,
    alloc: Global,
    words: &Seq<Text>,
    file: &str,
    faults: Faults,
    input: &mut MemorySource,
) -> Result<String, Memory> {
    let mut out = MemorySink::new(alloc, faults.room as usize, &[faults.sink], 99)?;
    let told = match store_of(alloc, file, faults) {
        Ok(mut store) => {
            let told = ran(rt, alloc, words, input, &mut out, &mut store);
            drop(store);
            told
        }
        Err(Memory) => Err(Memory),
    };
    drop(out);
    told
}

fn source_of(alloc: Global, input: &str, faults: Faults) -> Result<MemorySource, Memory> {
    let mut bytes = Text::of(alloc, input.as_bytes())?;
    bytes.push(b'\n')?;
    MemorySource::new(alloc, bytes.as_slice(), &[faults.source], NEVER)
}

/// The status, what is written and the file `r` after the command of these words, this fault, this file and this input with a line end.
pub fn told<R: Threads + OpensLedgers + Sync>(
    rt: &R,
    alloc: Global,
    given: &str,
) -> Result<String, Memory> {
    let (words, given) = given.split_once('\t').unwrap_or((given, ""));
    let (fault, given) = given.split_once('\t').unwrap_or((given, ""));
    let (file, input) = given.split_once('\t').unwrap_or((given, ""));
    answered(rt, alloc, words, faults_of(fault), file, input)
}

/// The same of these parts.
pub fn answered<R: Threads + OpensLedgers + Sync>(
    rt: &R,
    alloc: Global,
    words: &str,
    faults: Faults,
    file: &str,
    input: &str,
) -> Result<String, Memory> {
    let words = words_of(alloc, words)?;
    let mut input = source_of(alloc, input, faults)?;
    let told = ran_from(rt, alloc, &words, file, faults, &mut input);
    drop(input);
    told
}

/// What two commands answer over one file and input: the first one's status, how long its answer is, and whether the other's is the same.
pub fn compared<R: Threads + OpensLedgers + Sync>(
    rt: &R,
    alloc: Global,
    given: &str,
) -> Result<String, Memory> {
    let (words, given) = given.split_once('\t').unwrap_or((given, ""));
    let (others, given) = given.split_once('\t').unwrap_or((given, ""));
    let (file, input) = given.split_once('\t').unwrap_or((given, ""));
    let faults = faults_of("room 40000");
    let told = answered(rt, alloc, words, faults, file, input)?;
    let other = answered(rt, alloc, others, faults, file, input)?;
    let (status, _) = told.as_str().split_once(' ').unwrap_or(("", ""));
    let bytes = told.len();
    let said = if told.as_str() == other.as_str() {
        "the same"
    } else {
        "another"
    };
    Ok(format!(in alloc; "{status} {bytes} {said}")?)
}
