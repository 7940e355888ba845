// The files of the system. It tells none of them.

ghost use Rattle.std.specs.Prelude.{◌≡◌, None};
ghost use Rattle.fed_ports.specs.Stores.{Loads};

use crate::file_lock::FileLock;
use fed_base::{Duplicate, Failed, Memory, Text};
use fed_ports::{ReadEnd, RealSource, Store, StoreFault, read_all};
use std::alloc::Global;
use std::fs::{File, OpenFile, OpenOptions};
use std::io::{Eprint, ErrorKind, Write};
use std::os::unix::fs::OpenOptionsExt;
use std::rt::Files;
use std::{fs, io, str};

/// The files of the folder that the program runs in, and of the paths from there.
///
/// A file is kept in the place of the one that was loaded last under its name, and of no other: where another stands there by then, nothing
/// is kept. So of programs that change a file at once, none undoes what another has done. What a user can do about a failure is said on
/// standard error.
#[derive(Drop)]
pub struct RealStore<'a, R: Files<File = File> + AllocGlobal + Eprint> {
    rt: &'a R,
    seen: Option<Seen>,
    faults: u64,
}

impl<'a, R: Files<File = File> + AllocGlobal + Eprint> RealStore<'a, R> {
    /// A store that has not failed yet.
    pub fn new(rt: &'a R) -> RealStore<'a, R>
        ensures { ⟦<RealStore<'a, R> as Store>⟧.store_faults result ≡ 0 }
    {
        RealStore {
            rt,
            seen: None,
            faults: 0,
        }
    }
}

// What was loaded last: a name, and the bytes of its file, where there was one.
#[derive(Drop)]
struct Seen {
    name: Text,
    bytes: Option<Text>,
}

impl Seen {
    fn of(alloc: Global, name: &Text, bytes: &Option<Text>) -> Result<Seen, Memory> {
        let bytes = match bytes {
            Some(bytes) => Some(bytes.copy(alloc)?),
            None => None,
        };
        Ok(Seen {
            name: name.copy(alloc)?,
            bytes,
        })
    }
}

// The whole file, or `None` where there is none. A name in a folder that isn't there is that of no file; that of a link that leads nowhere
// isn't, since a file that is kept would take the link's place.
fn load_file<R: Files + Eprint>(
    rt: &R,
    alloc: Global,
    name: &Text,
) -> Result<Option<Text>, StoreFault>
    ensures { Loads None name.now result }
{
    let Ok(path) = str::from_utf8(name.as_slice()) else {
        return Err(StoreFault::Failed);
    };
    match fs::open(rt, path) {
        Ok(file) => match read_all(alloc, &mut RealSource::new(file)) {
            Ok(bytes) => Ok(Some(bytes)),
            Err(ReadEnd::TooLong) => Err(StoreFault::TooLong),
            Err(ReadEnd::Memory) => Err(StoreFault::Memory),
            Err(ReadEnd::Failed) => Err(StoreFault::Failed),
        },
        Err(error) => match error.kind() {
            ErrorKind::NotFound | ErrorKind::NotADirectory if is_link(rt, path) => Err(
                StoreFault::Failed,
            ),
            ErrorKind::NotFound | ErrorKind::NotADirectory => Ok(None),
            ErrorKind::OutOfMemory => Err(StoreFault::Memory),
            _ => Err(StoreFault::Failed),
        },
    }
}

// Whether the name is that of a link, and says so.
fn is_link<R: Files + Eprint>(rt: &R, path: &str) -> bool {
    let is_link = fs::symlink_metadata(rt, path).is_ok_and(|found| found.is_symlink());
    if is_link {
        let _ = eprintln!(rt;
            "fed: {path} is a link, and no file is kept in its place; name the file that it is to lead to"
        );
    }
    is_link
}

// Whether what was seen under that name still stands there, and says so where it doesn't.
fn still_stands<R: Files + Eprint>(
    rt: &R,
    alloc: Global,
    name: &Text,
    path: &str,
    seen: &Option<Seen>,
) -> bool {
    let Some(seen) = seen else {
        return true;
    };
    if seen.name.as_slice() != name.as_slice() {
        return true;
    }
    let stands = match (load_file(rt, alloc, name), &seen.bytes) {
        (Ok(Some(found)), Some(bytes)) => found.as_slice() == bytes.as_slice(),
        (Ok(None), None) => true,
        _ => false,
    };
    if !stands {
        let _ = eprintln!(rt;
            "fed: {path} was changed by another program meanwhile, and is left as it is"
        );
    }
    stands
}

// How many names for the new file are tried, where files of these names are there already.
const NAMES: u8 = 16;

// Writes the bytes into a new file beside that name, readable by its owner alone, names it so once they are on the disk, and then brings
// the name there too: its folder is opened before anything is written. A file that is there under another name stays as it is.
fn keep_file<R: Files + Eprint>(rt: &R, alloc: Global, name: &Text, bytes: &[u8]) -> Option<()> {
    let path = str::from_utf8(name.as_slice()).ok()?;
    let Ok(folder) = fs::open(rt, folder_of(path)) else {
        let _ = eprintln!(rt;
            "fed: the folder of {path} can't be read, so that what is kept there can't be brought to the disk; nothing was changed"
        );
        return None;
    };
    put_in_place(rt, alloc, name, path, bytes)?;
    if folder.sync_all().is_err() {
        let _ = eprintln!(rt;
            "fed: {path} was changed, but its folder could not be brought to the disk; look which file stands there before the change is tried again"
        );
        return None;
    }
    Some(())
}

// The folder that a path leads into.
fn folder_of(path: &str) -> &str {
    match path.rsplit_once('/') {
        Some(("", _)) => "/",
        Some((folder, _)) => folder,
        None => ".",
    }
}

// Writes the bytes into a new file, under the first of its names that is free, and puts it in the place of the other.
fn put_in_place<R: Files>(
    rt: &R,
    alloc: Global,
    name: &Text,
    path: &str,
    bytes: &[u8],
) -> Option<()> {
    for letter in 0..NAMES {
        let mut beside = name.copy(alloc).ok()?;
        beside.append(b".new-").ok()?;
        beside.push(b'a' + letter).ok()?;
        let beside = str::from_utf8(beside.as_slice()).ok()?;
        match keep_beside(rt, path, beside, bytes) {
            Err(error) if error.kind() == ErrorKind::AlreadyExists => {}
            kept => return kept.ok(),
        }
    }
    None
}

// Writes a file that isn't there yet, and puts it in the place of the other. Where that fails, the new file is taken away.
fn keep_beside<R: Files>(rt: &R, path: &str, beside: &str, bytes: &[u8]) -> io::Result<()> {
    let mut how = OpenOptions::new();
    how.write(true).create_new(true).mode(0o600);
    let file = how.open(rt, beside)?;
    let kept = match write_down(file, bytes) {
        Ok(()) => fs::rename(rt, beside, path),
        Err(error) => Err(error),
    };
    if kept.is_err() {
        let _ = fs::remove_file(rt, beside);
    }
    kept
}

// Writes the bytes down to the disk.
fn write_down<F: Write + OpenFile + Drop>(mut file: F, bytes: &[u8]) -> io::Result<()> {
    file.write_all(bytes)?;
    file.sync_all()
}

// Keeps the file where what was seen still stands in its place, under its lock.
fn replace<R: Files<File = File> + Eprint>(
    rt: &R,
    alloc: Global,
    name: &Text,
    bytes: &[u8],
    seen: &Option<Seen>,
) -> Option<()> {
    let path = str::from_utf8(name.as_slice()).ok()?;
    let mut beside = name.copy(alloc).ok()?;
    beside.append(b".lock").ok()?;
    let beside = str::from_utf8(beside.as_slice()).ok()?;
    let lock = FileLock::take(rt, beside)?;
    let kept = if is_link(rt, path) || !still_stands(rt, alloc, name, path, seen) {
        None
    } else {
        keep_file(rt, alloc, name, bytes)
    };
    lock.leave(rt, beside);
    kept
}

impl<'a, R: Files<File = File> + AllocGlobal + Eprint> Store for RealStore<'a, R> {
    ghost files = { λ _. None };

    ghost store_faults = { λ store. store.faults };

    fn load(&mut self, alloc: Global, name: &Text) -> Result<Option<Text>, StoreFault> {
        match load_file(self.rt, alloc, name) {
            Ok(bytes) => {
                self.seen = Some(Seen::of(alloc, name, &bytes)?);
                Ok(bytes)
            }
            Err(StoreFault::Failed) => {
                self.faults = self.faults.saturating_add(1);
                Err(StoreFault::Failed)
            }
            Err(fault) => Err(fault),
        }
    }

    fn keep(&mut self, name: &Text, bytes: &[u8]) -> Result<(), Failed> {
        match replace(self.rt, self.rt.alloc(), name, bytes, &self.seen) {
            Some(()) => Ok(()),
            None => {
                self.faults = self.faults.saturating_add(1);
                Err(Failed)
            }
        }
    }
}
