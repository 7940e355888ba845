// The top calls.

ghost use Rattle.std.specs.Prelude.{◌≡◌, IfSome, None};
ghost use Rattle.cli_commands.specs.Noted.{HandsNotes};
ghost use Rattle.cli_commands.specs.Runs.{views, world};
ghost use Rattle.cli_words.specs.Calls.{command_of, inspection_of, registration_of, service_of};
ghost use Rattle.fed.specs.Commands.{DoesAs};
ghost use Rattle.fed.specs.Orders.{wanted_of};
ghost use Rattle.fed.specs.Ports.{all_views, node_seen, node_views, with_input};
ghost use Rattle.fed.specs.Registering.{RunsRegistration};
ghost use Rattle.fed.specs.Resolving.{HoldsBy};
ghost use Rattle.fed.specs.Services.{RunsService};

use crate::performing::perform;
use crate::ports::{Passes, Ports};
use cli_commands::hand_notes;
use fed_ports::{Clock, Network, OpensLedgers, Seq, Sink, Source, Store, Text};
use plain_notes::Notes;
use statement_shelf::FedPass;
use std::alloc::Global;
use std::sync::Wait;
use std::thread::Threads;

/// Does all that the program does, and answers its exit status.
///
/// The words are those after the program's name. Where they ask for a service, others are answered over the network, and for `resolve`
/// others are asked; `rehearse` does both in memory. What is only to be shown is shown by [`cli_inspect::inspect`], and any other command
/// is done by [`cli_commands::perform_command`]; these have their statuses.
///
/// | Status | A service ends so | Written |
/// |---|---|---|
/// | 0 | all connections were served | `served N` |
/// | 2 | a file isn't there, is too long or isn't of its form, or the node isn't of the kind that is asked for | `input` |
/// | 4 | the sink failed | a beginning of the text |
/// | 5 | memory was wanting | nothing |
/// | 6 | the store failed | nothing |
/// | 7 | the network failed to listen or to accept a connection | nothing |
/// | 8 | `resolver`: a shared object has counted 2^62 calls, and `worn` has a pass that has seen them | nothing |
///
/// After status 0 of `resolver`, `joined` has the pass of the one cache and the one book that all its connections used: it has seen what
/// any of them saw, and has the calls of all. After any other end it has none.
///
/// `resolve` ends so, and with 2, 4, 5 and 6 as a service does:
///
/// | Status | | Written |
/// |---|---|---|
/// | 0 | the entity is resolved | the reply's text |
/// | 1 | the anchor isn't listed, the entity's configuration isn't good, or there is no valid chain | the error of the resolve endpoint |
/// | 7 | no valid chain was found, and a fetch failed | nothing |
/// | 8 | a shared object has counted 2^62 calls, and `worn` has the pass that has seen them | nothing |
/// | 9 | no valid chain was found before a bound of the search | nothing |
///
/// With `--heed yes` the issuers of the reply's trust marks are asked about them over the same network, once the entity is resolved: behind
/// the reply's text, which is sealed anew where a mark isn't kept, stands a line for each mark. What is asked changes no status but for 5.
///
/// `rehearse` ends with 0, and its summary is written, or with 4, 5 and 8 as `resolve` does.
///
/// `register` ends so, and with 2, 4, 5, 6, 8 and 9 as `resolve` does; it looks at the files, then at the input, and then at the anchor:
///
/// | Status | | Written |
/// |---|---|---|
/// | 0 | the relying party is registered | the registration's text |
/// | 1 | the anchor isn't listed, what was posted is of neither form, there is no valid chain, or no relying party | `refused ..` |
/// | 2 | beside what `resolve` says: the input is too long | `input` |
/// | 3 | the source failed | nothing |
/// | 7 | no chain was found, and a fetch failed | nothing |
pub fn run<
    R: Threads + Wait + OpensLedgers + Sync,
    S: Source,
    K: Sink,
    D: Store,
    N: Network + Drop,
    C: Clock + Drop,
>(
    rt: &R,
    alloc: Global,
    words: &Seq<Text>,
    input: &mut S,
    out: &mut K,
    store: &mut D,
    net: &mut N,
    clock: &mut C,
    worn: &mut Option<FedPass>,
    joined: &mut Option<FedPass>,
) -> u8
where
    N::Peer: Drop,
    requires worn { worn.old ≡ None }
    requires joined { joined.old ≡ None }
    ensures command { service_of words.now ≡ None → registration_of words.now ≡ None → (net.new ≡ net.old) × (joined.new ≡ None) × DoesAs (inspection_of words.now) (command_of words.now)
        (world (views S.Source K.Sink D.Store C.Clock) input.old out.old store.old clock.old)
        (world (views S.Source K.Sink D.Store C.Clock) input.new out.new store.new clock.new) result }
    ensures service { IfSome (service_of words.now) (λ service. (input.new ≡ input.old) × RunsService
        (all_views N.Peer.Source N.Peer.Sink N.Network C.Clock) service
        (node_seen (node_views K.Sink D.Store N.Network C.Clock) out.old store.old net.old clock.old)
        (node_seen (node_views K.Sink D.Store N.Network C.Clock) out.new store.new net.new clock.new) joined.new result) }
    ensures registration { IfSome (registration_of words.now) (λ registration. (joined.new ≡ None) × RunsRegistration (wanted_of registration)
        (with_input S.Source input.old (node_seen (node_views K.Sink D.Store N.Network C.Clock) out.old store.old net.old clock.old))
        (with_input S.Source input.new (node_seen (node_views K.Sink D.Store N.Network C.Clock) out.new store.new net.new clock.new)) result) }
    ensures worn { HoldsBy worn.new result }
{
    let mut notes = Notes::new(alloc, None);
    perform(
        rt,
        alloc,
        words,
        Ports {
            input,
            out,
            store,
            net,
            clock,
        },
        Passes { worn, joined },
        &mut notes,
    )
}

/// Does what [`run`] does, and then hands what a person is to read of it to `said`: lines that say why the status isn't 0, and what looks
/// wrong where it is, which for claims and rings is told by another clock of the same kind. A note for which memory is wanting, or that
/// can't be written, changes nothing.
pub fn run_with_notes<
    R: Threads + Wait + OpensLedgers + Sync,
    S: Source,
    K: Sink,
    D: Store,
    N: Network + Drop,
    C: Clock + Drop,
    W: Sink,
>(
    rt: &R,
    alloc: Global,
    words: &Seq<Text>,
    input: &mut S,
    out: &mut K,
    store: &mut D,
    net: &mut N,
    clock: &mut C,
    worn: &mut Option<FedPass>,
    joined: &mut Option<FedPass>,
    said: &mut W,
) -> u8
where
    N::Peer: Drop,
    requires worn { worn.old ≡ None }
    requires joined { joined.old ≡ None }
    ensures command { service_of words.now ≡ None → registration_of words.now ≡ None → (net.new ≡ net.old) × (joined.new ≡ None) × DoesAs (inspection_of words.now) (command_of words.now)
        (world (views S.Source K.Sink D.Store C.Clock) input.old out.old store.old clock.old)
        (world (views S.Source K.Sink D.Store C.Clock) input.new out.new store.new clock.new) result }
    ensures service { IfSome (service_of words.now) (λ service. (input.new ≡ input.old) × RunsService
        (all_views N.Peer.Source N.Peer.Sink N.Network C.Clock) service
        (node_seen (node_views K.Sink D.Store N.Network C.Clock) out.old store.old net.old clock.old)
        (node_seen (node_views K.Sink D.Store N.Network C.Clock) out.new store.new net.new clock.new) joined.new result) }
    ensures registration { IfSome (registration_of words.now) (λ registration. (joined.new ≡ None) × RunsRegistration (wanted_of registration)
        (with_input S.Source input.old (node_seen (node_views K.Sink D.Store N.Network C.Clock) out.old store.old net.old clock.old))
        (with_input S.Source input.new (node_seen (node_views K.Sink D.Store N.Network C.Clock) out.new store.new net.new clock.new)) result) }
    ensures worn { HoldsBy worn.new result }
    // What is handed to `said` are notes, or a beginning of them.
    ensures said { HandsNotes (W.held said.old) (W.held said.new) }
{
    let mut notes = Notes::new(alloc, moment_of_notes(alloc, clock));
    let status = perform(
        rt,
        alloc,
        words,
        Ports {
            input,
            out,
            store,
            net,
            clock,
        },
        Passes { worn, joined },
        &mut notes,
    );
    hand_notes(said, &notes);
    status
}

// The moment of another clock.
fn moment_of_notes<C: Clock + Drop>(alloc: Global, clock: &C) -> Option<u64> {
    match clock.another(alloc) {
        Ok(mut other) => Some(other.now()),
        Err(_) => None,
    }
}
