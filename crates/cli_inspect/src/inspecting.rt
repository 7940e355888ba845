// What an inspection answers.

ghost use Rattle.std.specs.Prelude.{◌≡◌, ◌≤◌, ◌<◌, ℕ, IfOk, MatchResult, false, true};
ghost use Rattle.fed_base.specs.Moments.{moment_limit};
ghost use Rattle.cli_commands.specs.Answers.{StopsAs, readings_of};
ghost use Rattle.cli_commands.specs.Runs.{views, world};
ghost use Rattle.cli_inspect.specs.Inspections.{IsInspected, IsPublicReply, Inspects, reads_clock, reads_file, reads_input};
ghost use Rattle.fed_ports.specs.Times.{IsOneReading};

use crate::checked_reply::check_reply;
use crate::checking::Checking;
use crate::config::check_config;
use crate::output::write_line;
use crate::public::public;
use crate::shown::show_input;
use cli_commands::{Stop, load_file, stopped};
use cli_rings::{Reply, explain_no_ring, open_ring, plain};
use cli_words::{Inspection, Moment, moment_or};
use fed_ports::{Clock, OpensLedgers, Sink, Source, Store, Text};
use plain_notes::{Notes, warn_of_moment};
use std::alloc::Global;

/// Does what the inspection asks for, and gives the exit status:
///
/// | Status | Comes | Written |
/// |---|---|---|
/// | 0 | it is shown | what is shown |
/// | 1 | there is no such key, a text isn't what it says, a configuration or a reply is at fault | `refused ..`, last |
/// | 1 | something is warned of the node, and the check is strict | what is shown |
/// | 2 | the input or the named file isn't of its form, is too long, or isn't there | `input` |
/// | 3 | the source failed | nothing |
/// | 4 | the sink failed | a beginning of the text |
/// | 5 | memory was wanting | nothing |
/// | 6 | the store failed | nothing |
pub fn inspect<R: OpensLedgers, S: Source, K: Sink, D: Store, C: Clock>(
    rt: &R,
    alloc: Global,
    inspection: &Inspection,
    input: &mut S,
    out: &mut K,
    store: &mut D,
    clock: &mut C,
    notes: &mut Notes,
) -> u8
    ensures { Inspects inspection.now (world (views S.Source K.Sink D.Store C.Clock) input.old out.old store.old clock.old)
        (world (views S.Source K.Sink D.Store C.Clock) input.new out.new store.new clock.new) result }
{
    let moment = moment_for(inspection, clock);
    match reply_to(rt, alloc, inspection, moment, input, store, notes) {
        Ok(reply) => write_line(alloc, reply.status, reply.text.as_slice(), out, notes),
        Err(stop) => stopped(alloc, stop, notes),
    }
}

// The reply of the inspection, at a moment in seconds since 1970.
fn reply_to<R: OpensLedgers, S: Source, D: Store>(
    rt: &R,
    alloc: Global,
    inspection: &Inspection,
    moment: u64,
    input: &mut S,
    store: &mut D,
    notes: &mut Notes,
) -> Result<Reply, Stop>
    requires { moment < moment_limit }
    ensures files { D.files store.new ≡ D.files store.old }
    ensures steady { MatchResult result
        (λ reply. (S.read_faults input.new ≡ S.read_faults input.old) × (D.store_faults store.new ≡ D.store_faults store.old))
        (λ stop. StopsAs stop (S.read_faults input.old) (S.read_faults input.new) (D.store_faults store.old) (D.store_faults store.new)) }
    ensures reply { IfOk result (IsInspected inspection.now moment (D.files store.old) (S.left input.old) (S.left input.new)) }
    ensures small { IfOk result (λ reply. reply.status ≤ 2) }
    ensures input_apart { reads_input inspection.now ≡ false → input.new ≡ input.old }
    ensures store_apart { reads_file inspection.now ≡ false → store.new ≡ store.old }
{
    match inspection {
        Inspection::Public { ring_file, kid } => show_ring(alloc, ring_file, kid, store, notes),
        Inspection::Show { claims } => show_input(alloc, *claims, input, notes),
        Inspection::Config {
            config_file,
            at,
            strict,
        } => {
            warn_of_at(alloc, *at, notes);
            let moment = moment_or(*at, moment);
            let checking = Checking {
                moment,
                strict: *strict,
            };
            check_config(alloc, config_file, checking, store, notes)
        }
        Inspection::Help(verb) => Ok(plain(alloc, 0, verb.page())?),
        Inspection::Reply(asked) => {
            warn_of_at(alloc, asked.at, notes);
            check_reply(
                rt,
                alloc,
                asked,
                moment_or(asked.at, moment),
                input,
                store,
                notes,
            )
        }
    }
}

// The reply that shows the ring of the file of that name.
fn show_ring<D: Store>(
    alloc: Global,
    name: &Text,
    kid: &Option<Text>,
    store: &mut D,
    notes: &mut Notes,
) -> Result<Reply, Stop>
    ensures files { D.files store.new ≡ D.files store.old }
    ensures steady { (source : ℕ) → MatchResult result (λ reply. D.store_faults store.new ≡ D.store_faults store.old)
        (λ stop. StopsAs stop source source (D.store_faults store.old) (D.store_faults store.new)) }
    ensures reply { IfOk result (IsPublicReply (D.files store.old) name.now kid.now) }
    ensures small { IfOk result (λ reply. reply.status ≤ 2) }
{
    let file = load_file(alloc, name, store, notes)?;
    match open_ring(alloc, &file)? {
        Some(ring) => Ok(public(alloc, &ring, kid, notes)?),
        None => {
            explain_no_ring(alloc, name, &file, notes);
            Ok(plain(alloc, 2, b"input\n")?)
        }
    }
}

fn warn_of_at(alloc: Global, at: Option<Moment>, notes: &mut Notes) {
    if let Some(at) = at {
        warn_of_moment(alloc, b"--at", at.seconds(), notes);
    }
}

// The clock's moment for an inspection that has none of its own and wants one. No other reads the clock.
fn moment_for<C: Clock>(inspection: &Inspection, clock: &mut C) -> u64
    ensures small { result < moment_limit }
    ensures last { reads_clock inspection.now ≡ true → result ≡ C.last clock.new }
    ensures read { reads_clock inspection.now ≡ true → IsOneReading (readings_of C.Clock clock.old) (readings_of C.Clock clock.new) }
    ensures apart { reads_clock inspection.now ≡ false → clock.new ≡ clock.old }
{
    match inspection {
        Inspection::Config { at: None, .. } => clock.now(),
        Inspection::Reply(asked) => if asked.at.is_none() { clock.now() } else { 0 },
        _ => 0,
    }
}
