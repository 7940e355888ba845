// The lock under which a file is changed.

use std::fs::{File, OpenOptions, TryLockError};
use std::io::{Eprint, ErrorKind, Read, Seek, SeekFrom, Write};
use std::os::unix::fs::{MetadataExt, OpenOptionsExt};
use std::rt::Files;
use std::{fs, io, str};

// How many bytes a process's number has at most, in decimal, with what stands behind it.
const NUMBER: usize = 21;

// How often a lock is opened again that was given back while it was opened.
const TRIES: u32 = 16;

/// A file of its own, in which the number of the process stands that has it, under the system's lock of an open file (flock). That lock
/// ends with the process, however it ends; the file stays then, until another takes it over.
#[derive(Drop)]
pub(crate) struct FileLock {
    file: File,
}

// Why a lock isn't taken.
#[derive(Clone, Copy, Drop)]
enum Refused {
    // it was given back while it was opened
    Over,
    // the process of that number has it
    Held(Option<u64>),
    // what is there is a link, or can't be opened
    Closed,
    // the file system has no such locks
    Unknown,
    // the system makes no file there
    Failed,
}

impl FileLock {
    /// Takes the lock of that name, or says why it can't be taken. It waits for nobody. One whose process has ended is taken over, and that
    /// is said.
    pub(crate) fn take<R: Files<File = File> + Eprint>(rt: &R, name: &str) -> Option<FileLock> {
        for _ in 0..TRIES {
            match attempt(rt, name) {
                Ok(file) => return Some(FileLock { file }),
                Err(Refused::Over) => {}
                Err(refused) => {
                    explain(rt, name, refused);
                    return None;
                }
            }
        }
        explain(rt, name, Refused::Held(None));
        None
    }

    /// Gives the lock back. Where its file can't be removed it stays, and names nobody.
    pub(crate) fn leave<R: Files>(self, rt: &R, name: &str) {
        if fs::remove_file(rt, name).is_err() {
            let _ = self.file.set_len(0);
        }
    }
}

// Opens the file of that name and takes the system's lock of it, and writes down who has it.
fn attempt<R: Files<File = File> + Eprint>(rt: &R, name: &str) -> Result<File, Refused> {
    let (mut file, was_there) = opened(rt, name)?;
    match file.try_lock() {
        Ok(()) => {}
        Err(TryLockError::WouldBlock) => return Err(Refused::Held(number_in(&mut file))),
        Err(TryLockError::Error(_)) => return Err(Refused::Unknown),
    }
    if !stands(rt, name, &file) {
        return Err(Refused::Over);
    }
    if was_there {
        tell_of_left(rt, name, number_in(&mut file));
    }
    // The system's lock holds without it.
    let _ = sign(rt, &mut file);
    Ok(file)
}

// The file of that name, which is made where there is none, and whether there was one.
fn opened<R: Files<File = File>>(rt: &R, name: &str) -> Result<(File, bool), Refused> {
    let mut how = OpenOptions::new();
    how.read(true).write(true).create_new(true).mode(0o600);
    match how.open(rt, name) {
        Ok(file) => return Ok((file, false)),
        Err(error) if error.kind() == ErrorKind::AlreadyExists => {}
        Err(_) => return Err(Refused::Failed),
    }
    how.create_new(false);
    if fs::symlink_metadata(rt, name).is_ok_and(|found| found.is_symlink()) {
        return Err(Refused::Closed);
    }
    match how.open(rt, name) {
        Ok(file) => Ok((file, true)),
        Err(error) if error.kind() == ErrorKind::NotFound => Err(Refused::Over),
        Err(_) => Err(Refused::Closed),
    }
}

// Whether the open file stands under that name, which is no link.
fn stands<R: Files>(rt: &R, name: &str, file: &File) -> bool {
    match (fs::symlink_metadata(rt, name), file.metadata()) {
        (Ok(there), Ok(own)) => there.dev() == own.dev() && there.ino() == own.ino(),
        _ => false,
    }
}

// The number of a process that stands in the file.
fn number_in(file: &mut File) -> Option<u64> {
    let mut bytes = [0; NUMBER];
    file.seek(SeekFrom::Start(0)).ok()?;
    let count = file.read(&mut bytes).ok()?;
    let text = str::from_utf8(bytes.get(..count)?).ok()?;
    text.trim_ascii().parse().ok()
}

// The number of this process.
fn own_number<R: Files>(rt: &R) -> Option<u64> {
    let mut bytes = [0; NUMBER];
    let count = fs::open(rt, "/proc/self/stat").ok()?.read(&mut bytes).ok()?;
    let text = str::from_utf8(bytes.get(..count)?).ok()?;
    let (number, _) = text.split_once(' ')?;
    number.parse().ok()
}

// Writes the number of this process into the file, in the place of what stands there.
fn sign<R: Files>(rt: &R, file: &mut File) -> io::Result<()> {
    file.set_len(0)?;
    file.seek(SeekFrom::Start(0))?;
    match own_number(rt) {
        Some(number) => writeln!(file, "{number}"),
        None => Ok(()),
    }
}

// Says that the lock was there, and that no process has it.
fn tell_of_left<R: Eprint>(rt: &R, name: &str, by: Option<u64>) {
    let _ = match by {
        Some(number) => eprintln!(rt;
            "fed: {name} was left by process {number}, which ended before its change was done; this one takes it over"
        ),
        None => eprintln!(rt;
            "fed: {name} was there, and no process has it; this change takes it over"
        ),
    };
}

// Says why the lock isn't taken. Why the system makes no file is told by whoever looks at the folder.
fn explain<R: Eprint>(rt: &R, name: &str, refused: Refused) {
    let _ = match refused {
        Refused::Held(Some(number)) => eprintln!(rt;
            "fed: process {number} is changing the file and has {name}; try again once it has ended"
        ),
        Refused::Held(None) | Refused::Over => eprintln!(rt;
            "fed: another process is changing the file and has {name}; try again once it has ended"
        ),
        Refused::Closed => eprintln!(rt;
            "fed: {name} is there and is no lock that can be taken; where no process changes the file, remove {name} and try again"
        ),
        Refused::Unknown => eprintln!(rt;
            "fed: {name} can't be locked; keep the file on a file system that has flock"
        ),
        Refused::Failed => Ok(()),
    };
}
