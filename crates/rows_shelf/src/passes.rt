// Passes on the cache and the book that are split and joined.
ghost use Rattle.statement_shelf.specs.Passes.{IsPassOfAll};

use crate::book::{anchor_named, opened_anchors, push_reply, set_named};
use crate::part;
use fed_base::{Memory, Text};
use statement_shelf::{BookCall, Commons, FedPass, ShelfCall};
use std::alloc::Global;
use std::sync::Wait;
use turn_log::Worn;

// Why a row ended before its last call.
#[derive(Clone, Copy, Debug, PartialEq, Eq, Drop)]
enum Stop {
    // Memory was wanting.
    Memory,
    // An object had counted all its calls.
    Worn,
}

impl From<Memory> for Stop {
    fn from(_: Memory) -> Stop {
        Stop::Memory
    }
}

impl From<Worn> for Stop {
    fn from(_: Worn) -> Stop {
        Stop::Worn
    }
}

fn put<R: Wait>(rt: &R, alloc: Global, commons: &Commons, pass: &mut FedPass) -> Result<(), Stop>
    requires { IsPassOfAll commons.now pass.old }
    ensures { IsPassOfAll commons.now pass.new }
{
    let url = Text::of(alloc, b"u")?;
    let text = Text::of(alloc, b"text")?;
    commons.shelf(
        rt,
        alloc,
        pass,
        ShelfCall::Put {
            url,
            text,
            until: 10,
        },
    )?;
    Ok(())
}

fn look<R: Wait>(
    rt: &R,
    alloc: Global,
    commons: &Commons,
    pass: &mut FedPass,
    out: &mut Text,
) -> Result<(), Stop>
    requires { IsPassOfAll commons.now pass.old }
{
    let url = Text::of(alloc, b"u")?;
    let reply = commons.shelf(rt, alloc, pass, ShelfCall::Look { url, moment: 9 })?;
    Ok(part::push_reply(alloc, out, &reply)?)
}

fn put_and_look<R: Wait>(
    rt: &R,
    alloc: Global,
    commons: &Commons,
    first: &mut FedPass,
    out: &mut Text,
) -> Result<(), Stop>
    requires { IsPassOfAll commons.now first.old }
{
    put(rt, alloc, commons, first)?;
    let mut second = commons.split(rt, alloc, first)?;
    let told = look(rt, alloc, commons, &mut second, out);
    drop(second);
    told
}

// A pass puts a text; one that is split from it looks.
fn put_and_split<R: Wait>(rt: &R, alloc: Global, out: &mut Text) -> Result<(), Stop> {
    let (commons, mut first) = Commons::new(alloc, opened_anchors(alloc)?)?;
    let told = put_and_look(rt, alloc, &commons, &mut first, out);
    drop(first);
    drop(commons);
    told
}

fn rotate<R: Wait>(
    rt: &R,
    alloc: Global,
    commons: &Commons,
    pass: &mut FedPass,
    from: u64,
    keys: &str,
) -> Result<(), Stop>
    requires { IsPassOfAll commons.now pass.old }
    ensures { IsPassOfAll commons.now pass.new }
{
    let anchor = anchor_named(alloc, "ta")?;
    let keys = set_named(alloc, keys)?;
    commons.book(rt, alloc, pass, BookCall::Rotate { anchor, from, keys })?;
    Ok(())
}

fn read<R: Wait>(
    rt: &R,
    alloc: Global,
    commons: &Commons,
    pass: &mut FedPass,
    out: &mut Text,
) -> Result<(), Stop>
    requires { IsPassOfAll commons.now pass.old }
    ensures { IsPassOfAll commons.now pass.new }
{
    let anchor = anchor_named(alloc, "ta")?;
    let told = commons.book(rt, alloc, pass, BookCall::Read { anchor })?;
    Ok(push_reply(alloc, out, &told)?)
}

// Another pass reads what the first rotated, and rotates again; the first joins it.
fn join_rotated<R: Wait>(
    rt: &R,
    alloc: Global,
    commons: &Commons,
    first: &mut FedPass,
    out: &mut Text,
) -> Result<(), Stop>
    requires { IsPassOfAll commons.now first.old }
    ensures { IsPassOfAll commons.now first.new }
{
    let mut second = commons.split(rt, alloc, first)?;
    read(rt, alloc, commons, &mut second, out)?;
    rotate(rt, alloc, commons, &mut second, 1, "k4")?;
    commons.join(rt, first, second);
    Ok(())
}

fn rotate_by<R: Wait>(
    rt: &R,
    alloc: Global,
    commons: &Commons,
    first: &mut FedPass,
    out: &mut Text,
) -> Result<(), Stop>
    requires { IsPassOfAll commons.now first.old }
{
    rotate(rt, alloc, commons, first, 0, "k3")?;
    join_rotated(rt, alloc, commons, first, out)?;
    let epoch = commons.book(rt, alloc, first, BookCall::Epoch)?;
    out.append(b", ")?;
    Ok(push_reply(alloc, out, &epoch)?)
}

// A pass rotates the keys of an anchor; one that is split from it reads them and rotates again; the first joins it and asks for the epoch.
fn rotate_and_join<R: Wait>(rt: &R, alloc: Global, out: &mut Text) -> Result<(), Stop> {
    let (commons, mut first) = Commons::new(alloc, opened_anchors(alloc)?)?;
    let told = rotate_by(rt, alloc, &commons, &mut first, out);
    drop(first);
    drop(commons);
    told
}

fn put_ended<R: Wait>(
    rt: &R,
    alloc: Global,
    commons: &Commons,
    pass: &mut FedPass,
    url: &[u8],
) -> Result<(), Stop>
    requires { IsPassOfAll commons.now pass.old }
    ensures { IsPassOfAll commons.now pass.new }
{
    commons.shelf(rt, alloc, pass, ended_under(alloc, url)?)?;
    Ok(())
}

fn purge_ended<R: Wait>(
    rt: &R,
    alloc: Global,
    commons: &Commons,
    pass: &mut FedPass,
    out: &mut Text,
) -> Result<(), Stop>
    requires { IsPassOfAll commons.now pass.old }
{
    put_ended(rt, alloc, commons, pass, b"a")?;
    put_ended(rt, alloc, commons, pass, b"b")?;
    put_ended(rt, alloc, commons, pass, b"g")?;
    let reply = commons.shelf(rt, alloc, pass, ShelfCall::Purge { moment: 10 })?;
    Ok(part::push_reply(alloc, out, &reply)?)
}

// A pass puts texts under URLs of many parts and purges all.
fn put_and_purge<R: Wait>(rt: &R, alloc: Global, out: &mut Text) -> Result<(), Stop> {
    let (commons, mut first) = Commons::new(alloc, opened_anchors(alloc)?)?;
    let told = purge_ended(rt, alloc, &commons, &mut first, out);
    drop(first);
    drop(commons);
    told
}

// A Put of a text that ends at 10.
fn ended_under(alloc: Global, url: &[u8]) -> Result<ShelfCall, Memory> {
    Ok(ShelfCall::Put {
        url: Text::of(alloc, url)?,
        text: Text::of(alloc, b"text")?,
        until: 10,
    })
}

/// The replies of a row of that name.
pub fn replies<R: Wait>(rt: &R, alloc: Global, row: &str) -> Result<Text, Memory> {
    let mut out = Text::new(alloc);
    let end = match row {
        "split" => put_and_split(rt, alloc, &mut out),
        "join" => rotate_and_join(rt, alloc, &mut out),
        _ => put_and_purge(rt, alloc, &mut out),
    };
    match end {
        Ok(()) => Ok(out),
        Err(Stop::Memory) => Err(Memory),
        Err(Stop::Worn) => Text::of(alloc, b"worn"),
    }
}
