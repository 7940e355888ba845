// Doing a command.

ghost use Rattle.std.specs.Prelude.{◌≡◌, None, false};
ghost use Rattle.cli_commands.specs.Answers.{IsEnded, IsMomentFor, named, output_of, reads_clock, readings_of, stop_status};
ghost use Rattle.cli_commands.specs.Runs.{IsRun, views, world};

use crate::answer::{Stop, keep, reply_to};
use cli_rings::Reply;
use cli_words::Command;
use fed_ports::{Clock, OpensLedgers, Sink, Source, Store, write_all};
use plain_notes::{Notes, explain_memory, explain_sink};
use std::alloc::Global;
use std::thread::Threads;

/// Does the command, adds what a person is to read of it to the notes, and gives the exit status. The runtime is asked for threads where
/// `issue` signs by several workers.
///
/// The clock is looked at first, then the file that the command names, and the input. What is written goes to `out`, refusals too. What
/// `issue` seals verifies under the key of its ring file; the runtime starts the threads of its workers.
///
/// | Status | Comes | Written |
/// |---|---|---|
/// | 0 | the work is done | what the command makes |
/// | 1 | the text, the claims, the chain or the new ring is refused | `refused ..` |
/// | 2 | the words aren't of their form; the input or the named file isn't, is too long, or isn't there | `words`; `input` |
/// | 3 | the source failed | nothing |
/// | 4 | the sink failed | a beginning of the text |
/// | 5 | memory was wanting | nothing |
/// | 6 | the store failed | nothing |
pub fn perform_command<R: Threads + OpensLedgers + Sync, S: Source, K: Sink, D: Store, C: Clock>(
    rt: &R,
    alloc: Global,
    command: &Command,
    input: &mut S,
    out: &mut K,
    store: &mut D,
    clock: &mut C,
    notes: &mut Notes,
) -> u8
    ensures { IsRun command.now (world (views S.Source K.Sink D.Store C.Clock) input.old out.old store.old clock.old)
        (world (views S.Source K.Sink D.Store C.Clock) input.new out.new store.new clock.new) result }
{
    let moment = moment_for(command, clock);
    match reply_to(rt, alloc, command, moment, input, store, notes) {
        Ok(reply) => conclude(alloc, command, &reply, store, out, notes),
        Err(stop) => stopped(alloc, stop, notes),
    }
}

/// The status that says why there is no reply.
pub fn stopped(alloc: Global, stop: Stop, notes: &mut Notes) -> u8
    ensures { result ≡ stop_status stop }
{
    match stop {
        Stop::Source => 3,
        Stop::Memory => {
            explain_memory(alloc, notes);
            5
        }
        Stop::Store => 6,
    }
}

// Keeps what the reply has to keep, and then writes its text.
fn conclude<K: Sink, D: Store>(
    alloc: Global,
    command: &Command,
    reply: &Reply,
    store: &mut D,
    out: &mut K,
    notes: &mut Notes,
) -> u8
    ensures ended { IsEnded command.now reply.now (output_of K.Sink D.Store out.old store.old) (output_of K.Sink D.Store out.new store.new) result }
    ensures apart { named command.now ≡ None → store.new ≡ store.old }
{
    if keep(alloc, command, reply.kept.as_ref(), store, notes).is_err() {
        return 6;
    }
    match write_all(out, reply.text.as_slice()) {
        Ok(()) => reply.status,
        Err(_) => {
            explain_sink(alloc, notes);
            4
        }
    }
}

// The clock's moment for a check that has none of its own. No other command reads the clock.
fn moment_for<C: Clock>(command: &Command, clock: &mut C) -> u64
    ensures moment { IsMomentFor command.now (readings_of C.Clock clock.old) (readings_of C.Clock clock.new) result }
    ensures apart { reads_clock command.now ≡ false → clock.new ≡ clock.old }
{
    match command {
        Command::Check { at: None, .. } => clock.now(),
        _ => 0,
    }
}
