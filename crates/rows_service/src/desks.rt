// Two desks that are served at once.

ghost use Rattle.std.specs.Prelude.{All, IfOk, IfSome, OnOk};
ghost use Rattle.statement_shelf.specs.Passes.{IsPassOfAll};
ghost use Rattle.fed_serve.specs.Desks.{IsFree};

use crate::federation::MOMENT;
use crate::flag::{Flag, Signs};
use crate::link::{HeldLink, Hold};
use crate::network::TwoCallers;
use crate::peer::{Caller, TellingPeer};
use crate::resolver::{Opened, open};
use crate::words::{add_number, add_word};
use fed_base::{Duplicate, Failed, Memory, OpensLedgers, Plain, Seq, Steps, Text};
use fed_net::NamedPage;
use fed_ports::MemoryClock;
use fed_serve::{Desk, Node, serve_many};
use resolve_round::Trace;
use statement_shelf::FedPass;
use std::alloc::Global;
use std::sync::Wait;
use std::thread::Threads;

// The trust anchor is to be resolved, which needs its own page alone.
const ANCHOR: &[u8] =
    b"GET /resolve?sub=https%3A%2F%2Fta.example&trust_anchor=https%3A%2F%2Fta.example HTTP/1.1\r\nHost: resolver.example\r\n\r\n";

// Its subordinate, which needs three pages: that of the subordinate, then the anchor's two.
const LEAF: &[u8] =
    b"GET /resolve?sub=https%3A%2F%2Frp.example&trust_anchor=https%3A%2F%2Fta.example HTTP/1.1\r\nHost: resolver.example\r\n\r\n";

// An entity whose page is refused.
const ABSENT: &[u8] =
    b"GET /resolve?sub=https%3A%2F%2Fat.example&trust_anchor=https%3A%2F%2Fta.example HTTP/1.1\r\nHost: resolver.example\r\n\r\n";

// A desk of a test.
type TestDesk<'a> = Desk<TellingPeer<'a>, HeldLink<'a>, MemoryClock, Plain>;

// Who comes to a desk, and which call of its link is held.
#[derive(Clone, Copy, Drop)]
struct Seat<'a> {
    caller: Caller<'a>,
    hold: Hold<'a>,
}

// Two desks, and for what the second caller waits before it comes, if for anything.
#[derive(Clone, Copy, Drop)]
struct Plan<'a> {
    first: Seat<'a>,
    second: Seat<'a>,
    comes: Option<&'a Flag>,
}

fn seat_with<'a>(
    request: &'static [u8],
    signs: &'a Signs,
    call: u64,
    until: Option<&'a Flag>,
) -> Seat<'a> {
    Seat {
        caller: Caller {
            request,
            answered: &signs.answered,
        },
        hold: Hold {
            call,
            called: &signs.called,
            until,
        },
    }
}

/// Each desk's first call of its link waits until the other's link was called.
pub(crate) fn two_desks_meet<R: Threads + Wait + OpensLedgers + Sync>(
    rt: &R,
    alloc: Global,
    web: &Seq<NamedPage>,
) -> Result<Text, Memory> {
    let one = Signs::new();
    let two = Signs::new();
    let plan = Plan {
        first: seat_with(ANCHOR, &one, 1, Some(&two.called)),
        second: seat_with(ANCHOR, &two, 1, Some(&one.called)),
        comes: None,
    };
    serve(rt, alloc, web, plan)
}

/// The first desk's call of its link waits until the second desk was answered, whose caller comes once that call is made. The URLs that
/// both need belong to one part of the cache.
pub(crate) fn link_waits_alone<R: Threads + Wait + OpensLedgers + Sync>(
    rt: &R,
    alloc: Global,
    web: &Seq<NamedPage>,
) -> Result<Text, Memory> {
    let one = Signs::new();
    let two = Signs::new();
    let plan = Plan {
        first: seat_with(ANCHOR, &one, 1, Some(&two.answered)),
        second: seat_with(ABSENT, &two, 1, None),
        comes: Some(&one.called),
    };
    serve(rt, alloc, web, plan)
}

/// The second caller comes once the first desk has got the anchor's page and asks its link for the next.
pub(crate) fn shared_hit<R: Threads + Wait + OpensLedgers + Sync>(
    rt: &R,
    alloc: Global,
    web: &Seq<NamedPage>,
) -> Result<Text, Memory> {
    let one = Signs::new();
    let two = Signs::new();
    let plan = Plan {
        first: seat_with(LEAF, &one, 3, None),
        second: seat_with(ANCHOR, &two, 1, None),
        comes: Some(&one.called),
    };
    serve(rt, alloc, web, plan)
}

// Serves the two callers, and tells of both desks.
fn serve<'a, R: Threads + Wait + OpensLedgers + Sync>(
    rt: &R,
    alloc: Global,
    web: &Seq<NamedPage>,
    plan: Plan<'a>,
) -> Result<Text, Memory> {
    let opened = open(alloc)?;
    serve_opened(rt, alloc, web, plan, opened)
}

fn serve_opened<'a, R: Threads + Wait + OpensLedgers + Sync>(
    rt: &R,
    alloc: Global,
    web: &Seq<NamedPage>,
    plan: Plan<'a>,
    opened: Opened,
) -> Result<Text, Memory>
    requires { IfSome opened.node.resolver (λ part. IsPassOfAll part.commons opened.pass) }
{
    let Opened { node, mut pass } = opened;
    let told = serve_at(&node, rt, alloc, &mut pass, web, plan);
    drop(pass);
    drop(node);
    told
}

fn serve_at<'a, R: Threads + Wait + OpensLedgers + Sync>(
    node: &Node,
    rt: &R,
    alloc: Global,
    pass: &mut FedPass,
    web: &Seq<NamedPage>,
    plan: Plan<'a>,
) -> Result<Text, Memory>
    requires { IfSome node.now.resolver (λ part. IsPassOfAll part.commons pass.old) }
{
    let mut desks = Vec::new(alloc);
    let told = serve_added(node, rt, alloc, pass, web, plan, &mut desks);
    drop(desks);
    told
}

// Adds the two desks, and serves them.
fn serve_added<'a, R: Threads + Wait + OpensLedgers + Sync>(
    node: &Node,
    rt: &R,
    alloc: Global,
    pass: &mut FedPass,
    web: &Seq<NamedPage>,
    plan: Plan<'a>,
    desks: &mut Vec<TestDesk<'a>>,
) -> Result<Text, Memory>
    requires of { IfSome node.now.resolver (λ part. IsPassOfAll part.commons pass.old) }
    requires free { All (IsFree node.now) desks.old.items }
{
    add_desk(node, rt, alloc, pass, web, plan.first, desks)?;
    add_desk(node, rt, alloc, pass, web, plan.second, desks)?;
    serve_desks(node, rt, alloc, plan, desks.as_mut_slice())
}

// Adds a desk whose pass is split from this one.
fn add_desk<'a, R: OpensLedgers>(
    node: &Node,
    rt: &R,
    alloc: Global,
    pass: &mut FedPass,
    web: &Seq<NamedPage>,
    seat: Seat<'a>,
    desks: &mut Vec<TestDesk<'a>>,
) -> Result<(), Memory>
    requires of { IfSome node.now.resolver (λ part. IsPassOfAll part.commons pass.old) }
    requires free { All (IsFree node.now) desks.old.items }
    ensures of { IfSome node.now.resolver (λ part. IsPassOfAll part.commons pass.new) }
    ensures free { OnOk result (All (IsFree node.now) desks.new.items) }
{
    let desk = desk_at(node, rt, alloc, pass, web, seat)?;
    desks.push(desk)?;
    Ok(())
}

// A desk with a link over these pages and a pass that is split off.
fn desk_at<'a, R: OpensLedgers>(
    node: &Node,
    rt: &R,
    alloc: Global,
    pass: &mut FedPass,
    web: &Seq<NamedPage>,
    seat: Seat<'a>,
) -> Result<TestDesk<'a>, Memory>
    requires of { IfSome node.now.resolver (λ part. IsPassOfAll part.commons pass.old) }
    ensures of { IfSome node.now.resolver (λ part. IsPassOfAll part.commons pass.new) }
    ensures free { IfOk result (IsFree node.now) }
{
    let link = HeldLink::new(alloc, web.copy(alloc)?, seat.hold)?;
    match MemoryClock::new(alloc, &[MOMENT]) {
        Ok(clock) => desk_with(node, rt, alloc, pass, link, clock),
        Err(memory) => {
            drop(link);
            Err(memory)
        }
    }
}

fn desk_with<'a, R: OpensLedgers>(
    node: &Node,
    rt: &R,
    alloc: Global,
    pass: &mut FedPass,
    link: HeldLink<'a>,
    clock: MemoryClock,
) -> Result<TestDesk<'a>, Memory>
    requires of { IfSome node.now.resolver (λ part. IsPassOfAll part.commons pass.old) }
    ensures of { IfSome node.now.resolver (λ part. IsPassOfAll part.commons pass.new) }
    ensures free { IfOk result (IsFree node.now) }
{
    match split(node, rt, alloc, pass) {
        Ok(own) => Ok(Desk {
            pass: own,
            peer: None,
            link,
            clock,
            steps: Steps {
                ledger: Plain::new(rt),
            },
            result: None,
        }),
        Err(memory) => {
            drop(link);
            drop(clock);
            Err(memory)
        }
    }
}

// A pass of the node's shared objects, for another thread.
fn split<R>(node: &Node, rt: &R, alloc: Global, pass: &mut FedPass) -> Result<FedPass, Memory>
    requires of { IfSome node.now.resolver (λ part. IsPassOfAll part.commons pass.old) }
    ensures of { IfSome node.now.resolver (λ part. IsPassOfAll part.commons pass.new) }
    ensures own { IfOk result (λ own. IfSome node.now.resolver (λ part. IsPassOfAll part.commons own)) }
{
    match &node.resolver {
        Some(part) => part.commons.split(rt, alloc, pass),
        None => Err(Memory),
    }
}

fn serve_desks<'a, R: Threads + Wait + OpensLedgers + Sync>(
    node: &Node,
    rt: &R,
    alloc: Global,
    plan: Plan<'a>,
    desks: &mut [TestDesk<'a>],
) -> Result<Text, Memory>
    requires { All (IsFree node.now) desks.old }
{
    let mut net = TwoCallers::new(alloc, plan.first.caller, plan.second.caller, plan.comes)?;
    let served = serve_many(node, rt, alloc, &mut net, desks);
    drop(net);
    desks_told(alloc, served, desks)
}

// How many texts came from the cache.
fn hits_of(trace: &Option<Trace>) -> u64 {
    let mut hits: u64 = 0;
    if let Some(trace) = trace {
        for search in trace.searches.as_slice() {
            hits = hits.saturating_add(search.hits);
        }
    }
    hits
}

// Adds the status that was answered at a desk, how often its link was called, and how many texts came from the cache.
fn tell_desk(alloc: Global, out: &mut Text, desk: &TestDesk<'_>) -> Result<(), Memory> {
    let Some(Ok(served)) = &desk.result else {
        return add_word(out, b"unanswered");
    };
    add_number(alloc, out, served.status as u64)?;
    add_number(alloc, out, desk.link.calls())?;
    add_word(out, b"calls")?;
    add_number(alloc, out, hits_of(&served.trace))?;
    add_word(out, b"hits")
}

// Adds whether the network failed, and what is told of each desk.
fn tell_desks(
    alloc: Global,
    out: &mut Text,
    served: Result<(), Failed>,
    desks: &[TestDesk<'_>],
) -> Result<(), Memory> {
    if served.is_err() {
        add_word(out, b"the network failed")?;
    }
    for desk in desks {
        if !out.is_empty() {
            out.push(b';')?;
        }
        tell_desk(alloc, out, desk)?;
    }
    Ok(())
}

fn desks_told(
    alloc: Global,
    served: Result<(), Failed>,
    desks: &[TestDesk<'_>],
) -> Result<Text, Memory> {
    let mut out = Text::new(alloc);
    tell_desks(alloc, &mut out, served, desks)?;
    Ok(out)
}
