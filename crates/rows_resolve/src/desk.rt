// The cache and the book, and the calls that rows make on them.

ghost use Rattle.statement_shelf.specs.Passes.{IsPassOfAll};

use crate::keys::Key;
use crate::names::{entity, words};
use crate::pages::Shop;
use crate::told::{outcome_told, rotated_told};
use crate::words::{at, number};
use chain_climb::Bounds;
use entity_id::EntityId;
use fed_base::{Duplicate, Ledger, Memory, OpensLedgers, Plain, Seq, Steps, Text};
use fed_json::read_tree;
use fed_net::{MemoryLink, NamedPage};
use fed_resolver::{AnchorBounds, Outcome, resolve};
use jwk_set::JwkSet;
use resolve_reply::Signer;
use resolve_round::ResolveRequest;
use statement_shelf::{AnchorKeys, BookCall, Commons, FedPass};
use std::alloc::Global;
use std::sync::Wait;
use std::thread::Threads;

// How many calls a link answers.
const CALLS: u64 = 1000;

// The key of the resolver, and for how many seconds it keeps pages.
const RESOLVER: u8 = 4;

const AGE: u64 = 600;

// By how many workers it signs.
const WORKERS: u64 = 2;

// The set of a key by its name.
fn key_set(alloc: Global, shop: &mut Shop, key: &str) -> Result<JwkSet, Memory> {
    let text = shop.keys.set_named(alloc, key)?;
    let Ok(tree) = read_tree(alloc, text.as_slice()) else {
        return Err(Memory);
    };
    match JwkSet::read(alloc, &tree) {
        Ok(keys) => Ok(keys),
        Err(_) => Err(Memory),
    }
}

// A trust anchor with its key: their names with a space between them.
fn anchor_keys(alloc: Global, shop: &mut Shop, given: &str) -> Result<Option<AnchorKeys>, Memory> {
    let (name, key) = given.split_once(' ').unwrap_or((given, ""));
    let Some(anchor) = entity(alloc, name.as_bytes())? else {
        return Ok(None);
    };
    let keys = key_set(alloc, shop, key)?;
    Ok(Some(AnchorKeys { anchor, keys }))
}

/// `book` and an anchor with its key: an empty cache and a book of the anchor take the place of those that were there.
pub(crate) fn open(
    alloc: Global,
    shop: &mut Shop,
    commons: &mut Commons,
    pass: &mut FedPass,
    row: &str,
) -> Result<Text, Memory>
    requires { IsPassOfAll commons.old pass.old }
    ensures { IsPassOfAll commons.new pass.new }
{
    let mut anchors = Seq::new(alloc);
    if let Some(anchor) = anchor_keys(alloc, shop, at(row, 1))? {
        anchors.push(anchor)?;
    }
    let told = Text::of(alloc, b"opened")?;
    let (opened, unused) = Commons::new(alloc, anchors)?;
    *commons = opened;
    *pass = unused;
    Ok(told)
}

/// `rotate` and an anchor with its new key, and an epoch: replaces the anchor's keys.
pub(crate) fn rotate<R: Wait>(
    rt: &R,
    alloc: Global,
    shop: &mut Shop,
    commons: &Commons,
    pass: &mut FedPass,
    row: &str,
) -> Result<Text, Memory>
    requires { IsPassOfAll commons.now pass.old }
    ensures { IsPassOfAll commons.now pass.new }
{
    let Some(AnchorKeys { anchor, keys }) = anchor_keys(alloc, shop, at(row, 1))? else {
        return Text::of(alloc, b"no anchor");
    };
    let from = number(at(row, 2));
    let reply = commons.book(rt, alloc, pass, BookCall::Rotate { anchor, from, keys });
    rotated_told(alloc, &reply)
}

// The numbers of the calls that fail, from 0 on; rows count from 1.
fn failing(alloc: Global, given: &str) -> Result<Seq<u64>, Memory> {
    let mut failing = Seq::new(alloc);
    if given != "-" {
        failing.push(number(given).saturating_sub(1))?;
    }
    Ok(failing)
}

// The bounds that a part gives: an anchor, and how many statements of superiors, calls of the link and paths, with a space between two.
fn anchor_bounds(alloc: Global, part: &str) -> Result<Option<AnchorBounds>, Memory> {
    let mut words = part.split(' ');
    let name = words.next().unwrap_or("");
    let bounds = Bounds {
        depth: number(words.next().unwrap_or("")),
        calls: number(words.next().unwrap_or("")),
        paths: number(words.next().unwrap_or("")),
    };
    match entity(alloc, name.as_bytes())? {
        Some(anchor) => Ok(Some(AnchorBounds { anchor, bounds })),
        None => Ok(None),
    }
}

/// `bounds` and entries of anchors: the bounds of the calls behind it.
pub(crate) fn bounds(alloc: Global, shop: &mut Shop, row: &str) -> Result<Text, Memory> {
    let mut bounds = Seq::new(alloc);
    for part in row.split('\t').skip(1) {
        if let Some(entry) = anchor_bounds(alloc, part)? {
            bounds.push(entry)?;
        }
    }
    shop.bounds = bounds;
    Text::of(alloc, b"bounds")
}

fn signer(alloc: Global, shop: &mut Shop) -> Result<Option<Signer>, Memory> {
    let bounds = shop.bounds.copy(alloc)?;
    let keys = shop.keys.pair(Key::small(RESOLVER))?;
    match entity(alloc, b"resolver.example")? {
        Some(iss) => Ok(Some(Signer {
            iss,
            keys,
            age: AGE,
            bounds,
            workers: WORKERS,
        })),
        None => Ok(None),
    }
}

fn copied(alloc: Global, request: ResolveRequest) -> Result<Option<ResolveRequest>, Memory> {
    let copy = request.copy(alloc);
    drop(request);
    Ok(Some(copy?))
}

// What is asked for an entity: the anchor and the types of a row.
fn request_for(alloc: Global, sub: EntityId, row: &str) -> Result<Option<ResolveRequest>, Memory> {
    match entity(alloc, at(row, 3).as_bytes()) {
        Ok(Some(anchor)) => request_up_to(alloc, sub, anchor, row),
        Ok(None) => {
            drop(sub);
            Ok(None)
        }
        Err(Memory) => {
            drop(sub);
            Err(Memory)
        }
    }
}

fn request_up_to(
    alloc: Global,
    sub: EntityId,
    anchor: EntityId,
    row: &str,
) -> Result<Option<ResolveRequest>, Memory> {
    match words(alloc, at(row, 4)) {
        Ok(types) => copied(alloc, ResolveRequest { sub, anchor, types }),
        Err(Memory) => {
            drop(sub);
            drop(anchor);
            Err(Memory)
        }
    }
}

fn request(alloc: Global, row: &str) -> Result<Option<ResolveRequest>, Memory> {
    match entity(alloc, at(row, 2).as_bytes())? {
        Some(sub) => request_for(alloc, sub, row),
        None => Ok(None),
    }
}

// What a row asks of a resolver.
#[derive(Drop)]
struct Asked {
    signer: Signer,
    request: ResolveRequest,
    link: MemoryLink,
    t: u64,
}

// A link over the pages of a web, of which a call fails.
fn link_over(alloc: Global, web: &Seq<NamedPage>, given: &str) -> Result<MemoryLink, Memory> {
    let fail = failing(alloc, given)?;
    MemoryLink::new(alloc, web.copy(alloc)?, fail.as_slice(), CALLS)
}

fn asked_by(
    alloc: Global,
    web: &Seq<NamedPage>,
    signer: Signer,
    request: ResolveRequest,
    row: &str,
) -> Result<Option<Asked>, Memory> {
    match link_over(alloc, web, at(row, 5)) {
        Ok(link) => Ok(Some(Asked {
            signer,
            request,
            link,
            t: number(at(row, 1)),
        })),
        Err(Memory) => {
            drop(signer);
            drop(request);
            Err(Memory)
        }
    }
}

fn read_asked(
    alloc: Global,
    shop: &mut Shop,
    web: &Seq<NamedPage>,
    row: &str,
) -> Result<Option<Asked>, Memory> {
    let Some(request) = request(alloc, row)? else {
        return Ok(None);
    };
    match signer(alloc, shop) {
        Ok(Some(signer)) => asked_by(alloc, web, signer, request, row),
        Ok(None) => {
            drop(request);
            Ok(None)
        }
        Err(Memory) => {
            drop(request);
            Err(Memory)
        }
    }
}

fn call<R: Wait + Threads + Sync, G: Ledger>(
    rt: &R,
    alloc: Global,
    commons: &Commons,
    pass: &mut FedPass,
    asked: &mut Asked,
    steps: &mut Steps<G>,
) -> Outcome
    requires { IsPassOfAll commons.now pass.old }
    ensures { IsPassOfAll commons.now pass.new }
{
    let Asked {
        signer,
        request,
        link,
        t,
    } = asked;
    resolve(commons, rt, alloc, pass, signer, request, link, *t, steps)
}

/// `resolve MOMENT SUB ANCHOR TYPES FAILING SHOWN`: what a resolver answers over the pages of a web.
pub(crate) fn resolved<R: Wait + Threads + OpensLedgers + Sync>(
    rt: &R,
    alloc: Global,
    shop: &mut Shop,
    web: &Seq<NamedPage>,
    commons: &Commons,
    pass: &mut FedPass,
    row: &str,
) -> Result<Text, Memory>
    requires { IsPassOfAll commons.now pass.old }
    ensures { IsPassOfAll commons.now pass.new }
{
    let Some(mut asked) = read_asked(alloc, shop, web, row)? else {
        return Text::of(alloc, b"no entity");
    };
    let mut steps = Steps {
        ledger: Plain::new(rt),
    };
    let outcome = call(rt, alloc, commons, pass, &mut asked, &mut steps);
    let tests = steps.ledger.steps();
    let told = outcome_told(rt, alloc, &outcome, tests, &asked.signer, at(row, 6));
    drop(outcome);
    drop(asked);
    told
}
