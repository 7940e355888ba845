// The system's reasons, as a person reads them.

use plain_notes::{Notes, Sentence};
use std::alloc::Global;
use std::env::Env;
use std::fs::{OpenFile, OpenOptions};
use std::io::{ErrorKind, Write};
use std::os::unix::fs::OpenOptionsExt;
use std::rt::Files;
use std::{env, fs};

// How many bytes are written to see whether there is room for a ring's file.
const ROOM: usize = 8192;

/// Says that the environment's `FED_LISTEN` is no address to listen on.
pub(crate) fn explain_listen<R: Env + AllocGlobal>(rt: &R, alloc: Global, notes: &mut Notes) {
    let about = Sentence::of(alloc, b"FED_LISTEN");
    let about = match env::var(rt, "FED_LISTEN") {
        Ok(value) if value.as_str() == "socket" => {
            about.and(
                b"=socket wants a socket of IPv4 on standard input, as systemd hands one over",
            )
        }
        Ok(value) => {
            let is_long = value.as_bytes().contains(&b':');
            let about = about
                .and(b"=")
                .and(value.as_bytes())
                .and(b" isn't an IPv4 address, four numbers as 127.0.0.1");
            if is_long {
                about.and(b"; IPv6 isn't served")
            } else {
                about
            }
        }
        Err(_) => about.and(b" isn't an IPv4 address, four numbers as 127.0.0.1"),
    };
    notes.say(about);
}

/// Says that the environment's `FED_FETCH_SECONDS` is no time for fetching.
pub(crate) fn explain_fetch_time<R: Env + AllocGlobal>(rt: &R, alloc: Global, notes: &mut Notes) {
    let about = Sentence::of(alloc, b"FED_FETCH_SECONDS");
    let about = match env::var(rt, "FED_FETCH_SECONDS") {
        Ok(value) => about.and(b"=").and(value.as_bytes()),
        Err(_) => about,
    };
    notes.say(about.and(b" isn't a number of seconds from 1 to 3600, as 30"));
}

/// Says where the ring's file stands, whose change couldn't be told.
pub(crate) fn explain_untold<R: Files>(rt: &R, alloc: Global, path: &str, notes: &mut Notes) {
    if fs::metadata(rt, path).is_ok() {
        notes.say(
            Sentence::of(alloc, path.as_bytes())
                .and(b" is there; fed public --ring ")
                .and(path.as_bytes())
                .and(b" shows which keys it has"),
        );
    }
}

/// Says what keeps a new file from being made beside the file, and its bytes from being written there.
pub(crate) fn explain_unkept<R: Files + AllocGlobal>(
    rt: &R,
    alloc: Global,
    path: &str,
    notes: &mut Notes,
) {
    if path.is_empty() {
        notes.say(Sentence::of(alloc, b"a file has a name, and \"\" is none"));
        return;
    }
    let Some(kind) = fault_beside(rt, alloc, path) else {
        return;
    };
    let reason: &[u8] = match kind {
        ErrorKind::PermissionDenied => b": permission denied: its folder isn't yours to write in",
        ErrorKind::ReadOnlyFilesystem => b": its file system can be read alone",
        ErrorKind::StorageFull => b": no space is left on its file system",
        ErrorKind::QuotaExceeded => b": what you may write there is used up",
        _ => return,
    };
    notes.say(Sentence::of(alloc, path.as_bytes()).and(reason));
}

// Why no file can be made and written beside the file. The one that is tried is taken away again.
fn fault_beside<R: Files + AllocGlobal>(rt: &R, alloc: Global, path: &str) -> Option<ErrorKind> {
    let beside = format!(in alloc; "{path}.new-p").ok()?;
    let mut how = OpenOptions::new();
    how.write(true).create_new(true).mode(0o600);
    match how.open(rt, beside.as_str()) {
        Ok(file) => {
            let fault = fault_of_writing(file);
            let _ = fs::remove_file(rt, beside.as_str());
            fault
        }
        Err(error) => Some(error.kind()),
    }
}

fn fault_of_writing<F: Write + OpenFile + Drop>(mut file: F) -> Option<ErrorKind> {
    let written = file.write_all(&[0; ROOM]);
    match written {
        Ok(()) => file.sync_all().err().map(|error| error.kind()),
        Err(error) => Some(error.kind()),
    }
}
