//! Layer 7, the program: `fed`, an authority and trust chain resolver of OpenID Federation 1.0.
//!
//! [`run`] does what the words ask for, over any source, sink, store, network and clock: a service answers others over the network, a
//! registration reads an input and asks others, and any other command is done by `cli_commands`. It carries what is proved of the program.
//! [`run_with_notes`] does the same, and hands what a person is to read of it to one more sink.
//!
//! `main` makes the real outside, calls [`run_with_notes`], and ends with its status. What a person reads goes to standard error, unless
//! the environment has `FED_QUIET=1`. A service listens on 127.0.0.1, or on the IPv4 address in `FED_LISTEN`, or, where that is `socket`,
//! on the socket that standard input is. Each answer leaves a line on standard error, of JSON where the environment has `FED_LOG=json`,
//! and none where that is `off`, `no` or `0`. What one call fetches takes 30 seconds in all, or as many as the environment has in
//! `FED_FETCH_SECONDS`. Before a service `main` says what starts, and behind it why it ends, and of a configuration that is checked or
//! started that others can read its ring. Behind its version it writes the commit and the target that the script `fed` wrote behind the
//! program's bytes.
#![tactic(auto)]

mod authority;
mod heeding;
mod performing;
mod ports;
mod registering;
mod rehearsing;
mod resolver;
mod resolving;
mod top;

use cli_words::{Call, Service, read_call};
use fed_net::{FETCH_SECONDS, Log, RealNetwork, fetch_seconds, handed_over};
use fed_ports::{Memory, RealClock, RealSink, RealSource, Seq, Text, listen_address};
use fed_store::RealStore;
use std::alloc::Global;
use std::env;
use std::env::{Env, VarError};
use std::io::{ErrorKind, IsTerminal};
use std::net::TcpListener;
use std::os::fd::AsFd;
use std::process::ExitCode;
use system_notes::{
    FAULTY, ended, tell_of_address, tell_of_fetch_time, tell_of_node, tell_of_waiting, with_build,
    with_ring,
};
use top::{run, run_with_notes};

// The words after the program's name. Where one isn't UTF-8 a word stands for them that no command has.
fn words<R: Env + AllocGlobal>(rt: &R) -> Result<Seq<Text>, Memory> {
    let alloc = rt.alloc();
    let mut words = Seq::new(alloc);
    match env::args(rt) {
        Ok(given) => {
            for word in given.skip(1) {
                words.push(Text::from_vec(word.into_bytes()))?;
            }
        }
        Err(error) if error.kind() == ErrorKind::OutOfMemory => return Err(Memory),
        Err(_) => words.push(Text::of(alloc, b"\xff")?)?,
    }
    Ok(words)
}

// Whether nothing is to be said on standard error.
fn is_quiet<R: Env + AllocGlobal>(rt: &R) -> bool {
    env::var(rt, "FED_QUIET").is_ok_and(|value| value.as_str() == "1")
}

// What line each answer leaves on standard error.
fn log<R: Env + AllocGlobal>(rt: &R) -> Log {
    match env::var(rt, "FED_LOG") {
        Ok(value) => match value.as_str() {
            "off" | "no" | "0" => Log::Off,
            "json" => Log::Json,
            _ => Log::Lines,
        },
        Err(_) => Log::Lines,
    }
}

// The socket that is handed over on that input, with the four numbers of its address, where a service is to listen on it.
fn handed<R: Env + AllocGlobal, F: AsFd>(rt: &R, input: &F) -> Option<(TcpListener, [u8; 4])> {
    match env::var(rt, "FED_LISTEN") {
        Ok(value) if value.as_str() == "socket" => handed_over(input),
        _ => None,
    }
}

// The four numbers of the address of a socket that was handed over.
fn address_of(handed: &Option<(TcpListener, [u8; 4])>) -> Option<[u8; 4]> {
    match handed {
        Some(found) => {
            let ip = found.1;
            Some(ip)
        }
        None => None,
    }
}

// The four numbers of the address on which a service listens, or `None` where the environment names nothing that it could listen on.
fn address<R: Env + AllocGlobal>(
    rt: &R,
    handed: &Option<(TcpListener, [u8; 4])>,
) -> Result<Option<[u8; 4]>, Memory> {
    match env::var(rt, "FED_LISTEN") {
        Ok(value) if value.as_str() == "socket" => Ok(address_of(handed)),
        Ok(value) => Ok(listen_address(value.as_bytes())),
        Err(VarError::NotPresent) => Ok(Some([127, 0, 0, 1])),
        Err(VarError::NotUnicode) => Ok(None),
        Err(VarError::OutOfMemory) => Err(Memory),
    }
}

// How many seconds all exchanges of one call take, or `None` where the environment names no such number.
fn fetch_time<R: Env + AllocGlobal>(rt: &R) -> Result<Option<u64>, Memory> {
    match env::var(rt, "FED_FETCH_SECONDS") {
        Ok(value) => Ok(fetch_seconds(value.as_bytes())),
        Err(VarError::NotPresent) => Ok(Some(FETCH_SECONDS)),
        Err(VarError::NotUnicode) => Ok(None),
        Err(VarError::OutOfMemory) => Err(Memory),
    }
}

// Whether the words ask for what may ask others over the network.
fn fetches(alloc: Global, words: &[Text]) -> bool {
    match read_call(alloc, words) {
        Ok(Call::Registration(_)) => true,
        _ => serves(alloc, words),
    }
}

// Whether the words ask for a service over the network.
fn serves(alloc: Global, words: &[Text]) -> bool {
    match read_call(alloc, words) {
        Ok(Call::Service(Service::Rehearse { params: _ })) => false,
        Ok(Call::Service(_)) => true,
        Ok(Call::Command(_) | Call::Inspection(_) | Call::Registration(_)) | Err(_) => false,
    }
}

fn main(rt: HostRuntime) -> ExitCode {
    let alloc = rt.alloc();
    let Ok(words) = words(&rt) else {
        return ExitCode::from(5);
    };
    let handed = handed(&rt, &rt.stdin());
    let Ok(address) = address(&rt, &handed) else {
        return ExitCode::from(5);
    };
    if address.is_none() && serves(alloc, words.as_slice()) {
        if !is_quiet(&rt) {
            tell_of_address(&rt, alloc);
        }
        return ExitCode::from(FAULTY);
    }
    let Ok(fetch_time) = fetch_time(&rt) else {
        return ExitCode::from(5);
    };
    if fetch_time.is_none() && fetches(alloc, words.as_slice()) {
        if !is_quiet(&rt) {
            tell_of_fetch_time(&rt, alloc);
        }
        return ExitCode::from(FAULTY);
    }
    let ip = address.unwrap_or([127, 0, 0, 1]);
    let mut net = RealNetwork::new(&rt, alloc, ip, log(&rt));
    net.set_fetch_seconds(fetch_time.unwrap_or(FETCH_SECONDS));
    if let Some(found) = handed {
        net.set_listener(found.0);
    }
    let mut input = RealSource::new(rt.stdin());
    let mut out = RealSink::new(rt.stdout());
    let mut store = RealStore::new(&rt);
    let mut clock = RealClock::new(&rt);
    let mut worn = None;
    let mut joined = None;
    if is_quiet(&rt) {
        let status = run(
            &rt,
            alloc,
            &words,
            &mut input,
            &mut out,
            &mut store,
            &mut net,
            &mut clock,
            &mut worn,
            &mut joined,
        );
        let checked = with_ring(&rt, alloc, words.as_slice(), status);
        return ExitCode::from(with_build(&rt, words.as_slice(), &mut out, checked));
    }
    if rt.stdin().is_terminal() {
        tell_of_waiting(&rt, alloc, words.as_slice());
    }
    let node = tell_of_node(&rt, alloc, words.as_slice(), ip);
    let mut said = RealSink::new(rt.stderr());
    let status = run_with_notes(
        &rt,
        alloc,
        &words,
        &mut input,
        &mut out,
        &mut store,
        &mut net,
        &mut clock,
        &mut worn,
        &mut joined,
        &mut said,
    );
    let failures = *net.failures();
    ExitCode::from(ended(
        &rt,
        alloc,
        words.as_slice(),
        &node,
        &failures,
        &mut out,
        status,
    ))
}
