// What the system tells of the file that the words name.

use fed_ports::Text;
use plain_notes::{Notes, Sentence};
use std::alloc::Global;
use std::io::ErrorKind;
use std::os::unix::fs::PermissionsExt;
use std::rt::Files;
use std::{fs, str};

/// The word behind the option, where there is one.
pub(crate) fn value_of<'a>(words: &'a [Text], name: &[u8]) -> Option<&'a str> {
    match words {
        [option, value, ..] if option.as_slice() == name => str::from_utf8(value.as_slice()).ok(),
        [_, rest @ ..] => value_of(rest, name),
        [] => None,
    }
}

/// Says what keeps the file from being read or kept, by what stands under its name, and answers whether that is seen there.
pub(crate) fn explain_fault<R: Files>(
    rt: &R,
    alloc: Global,
    path: &str,
    notes: &mut Notes,
) -> bool {
    if fs::metadata(rt, path).is_ok_and(|found| found.is_dir()) {
        notes.say(Sentence::of(alloc, path.as_bytes()).and(b" is a folder, and not a file"));
        return true;
    }
    if fs::open(rt, path).is_err_and(|error| error.kind() == ErrorKind::PermissionDenied) {
        notes.say(Sentence::of(alloc, path.as_bytes()).and(b" isn't yours to read"));
        return true;
    }
    explain_folder(rt, alloc, path, notes)
}

// Says that the folder of the file isn't there, where it isn't.
fn explain_folder<R: Files>(rt: &R, alloc: Global, path: &str, notes: &mut Notes) -> bool {
    let Some((folder, _)) = path.rsplit_once('/') else {
        return false;
    };
    if folder.is_empty() || fs::metadata(rt, folder).is_ok() {
        return false;
    }
    notes.say(Sentence::of(alloc, b"no such folder: ").and(folder.as_bytes()));
    true
}

/// Whether others than its owner can read or write the file.
pub(crate) fn is_open_file<R: Files>(rt: &R, name: &Text) -> bool {
    match str::from_utf8(name.as_slice()) {
        Ok(path) => is_open(rt, path),
        Err(_) => false,
    }
}

fn is_open<R: Files>(rt: &R, path: &str) -> bool {
    fs::metadata(rt, path).is_ok_and(|found| found.permissions().mode() & 0o077 != 0)
}

/// Says so where others than its owner can read or write the ring file of that name.
pub(crate) fn warn_of_open<R: Files>(rt: &R, alloc: Global, name: &Text, notes: &mut Notes) {
    if let Ok(path) = str::from_utf8(name.as_slice()) {
        warn_of_open_file(rt, alloc, path, notes);
    }
}

/// The same, of a path.
pub(crate) fn warn_of_open_file<R: Files>(rt: &R, alloc: Global, path: &str, notes: &mut Notes) {
    if is_open(rt, path) {
        notes.say(
            Sentence::of(alloc, b"others than its owner can read ")
                .and(path.as_bytes())
                .and(b" and so sign in the node's name; `chmod 600 ")
                .and(path.as_bytes())
                .and(b"` keeps it to its owner"),
        );
    }
}
