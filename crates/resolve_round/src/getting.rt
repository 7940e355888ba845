// What a round gets at a URL.

ghost use Rattle.std.specs.Prelude.{◌≡◌, ◌≤◌, length, take, IfOk, OnErr, OnOk};
ghost use Rattle.resolve_round.specs.Asking.{with_ask};
ghost use Rattle.resolve_round.specs.Calls.{HasPass, IsReady, UsesCache, point_of};
ghost use Rattle.resolve_round.specs.Courses.{Counts};
ghost use Rattle.resolve_round.specs.Getting.{IsSource, LooksUp};
ghost use Rattle.resolve_round.specs.Knowing.{AnswersStand, HoldsSoFar, with_search};
ghost use Rattle.resolve_round.specs.Linking.{LinkUsed, link_view};
ghost use Rattle.resolve_round.specs.Placing.{places_text, some_placed};
ghost use Rattle.resolve_round.specs.Proving.{AddsProves, IsProvedThere};
ghost use Rattle.resolve_round.specs.Told.{ProvesGood};
ghost use Rattle.resolve_round.specs.declared.trace.Got.TheVariants as got;

use crate::aim::Aim;
use crate::asking::{fetch, place_of};
use crate::call::Call;
use crate::halt::Halt;
use crate::looking::look;
use crate::proving::prove_tested;
use crate::trace::{Ask, Event, Got, Search};
use fed_base::{Duplicate, Ledger, Memory, Text};
use fed_ports::Link;
use statement_shelf::{Proven, ShelfCall, ShelfReply};
use std::alloc::Global;
use std::sync::Wait;

/// The place of a page among the asks of a round.
#[derive(Clone, Copy, Drop)]
pub struct Place {
    /// Its place.
    pub at: usize,
    /// Whether it was asked of the link just now.
    pub fresh: bool,
}

// Whether an event placed the text under the URL: a hit there, or a Put.
fn places(event: &Event, url: &Text, text: &Text) -> bool
    ensures { result ≡ places_text url.now text.now event.now }
{
    match event {
        Event::Shelf(ShelfCall::Look { url: at, moment: _ }, ShelfReply::Hit(proven)) => {
            at.as_slice() == url.as_slice() && proven.text.as_slice() == text.as_slice()
        }
        Event::Shelf(
            ShelfCall::Put {
                url: at,
                text: put,
                until: _,
            },
            _,
        ) => { at.as_slice() == url.as_slice() && put.as_slice() == text.as_slice() }
        _ => false,
    }
}

// Whether one of the first events placed it.
#[tactic(auto, unfolding(crate::specs::Placing::some_placed))]
fn is_placed(events: &[Event], url: &Text, text: &Text) -> bool
    ensures { result ≡ some_placed url.now text.now events.now }
{
    for event in events {
        if places(event, url, text) {
            return true;
        }
    }
    false
}

// Proves under the URL what is known of a text that was hit there, where none of the events before had placed it there.
fn prove_hit<R: Wait, G: Ledger>(
    call: &mut Call<'_, R, G>,
    before: usize,
    url: &Text,
    text: &Text,
) -> Result<(), Halt>
    requires of { HasPass call.old }
    requires before { before ≤ length call.old.trace.now.events }
    requires answers { AnswersStand call.old.trace.now.checks }
    ensures uses { UsesCache call.old call.new result }
    ensures only { AddsProves call.old.trace.now.checks call.old.trace.now.events call.new.trace.now.events }
    ensures proved { OnOk result (IsProvedThere call.old.trace.now.checks url.now text.now (take before call.old.trace.now.events)
        call.old.trace.now.events call.new.trace.now.events) }
{
    if is_placed(&call.trace.events.as_slice()[..before], url, text) {
        return Ok(());
    }
    prove_tested(call, url, text)
}

// Adds a text of the cache to the asks.
fn add_hit(alloc: Global, search: &mut Search, url: &Text, proven: Proven) -> Result<(), Memory>
    requires { Counts search.old }
    ensures ok { OnOk result (search.new ≡ with_ask search.old (record { url = url.now; got = got.Hit proven })) }
    ensures err { OnErr result (search.new ≡ search.old) }
{
    let url = url.copy(alloc)?;
    search.asks.push(Ask {
        url,
        got: Got::Hit(proven),
    })?;
    let fits = search.hits < search.asks.len() as u64;
    prove!(fits);
    search.hits += 1;
    Ok(())
}

// In a round that looks into the cache, looks for the text of a URL there, and adds it to the asks where there is one. Where no event
// had placed it there, what is known of it is proved there again.
fn on_shelf<R: Wait, G: Ledger>(
    call: &mut Call<'_, R, G>,
    search: &mut Search,
    aim: &Aim,
    url: &Text,
) -> Result<bool, Halt>
    requires ready { IsReady aim.now.age call.old search.old }
    ensures uses { UsesCache call.old call.new result }
    ensures err { OnErr result (search.new ≡ search.old) }
    ensures holds { HoldsSoFar aim.now.age search.new call.new.trace.now }
    ensures good { OnOk result (ProvesGood (with_search call.new.trace.now search.new)) }
    ensures found { IfOk result (LooksUp aim.now.looks url.now (point_of call.old search.old) (point_of call.new search.new)) }
{
    if !aim.looks {
        return Ok(false);
    }
    let before = call.trace.events.len();
    let Some(proven) = look(call, url)? else {
        return Ok(false);
    };
    prove_hit(call, before, url, &proven.text)?;
    add_hit(call.alloc, search, url, proven)?;
    Ok(true)
}

/// Gets the page of a URL: what the round has, or the cache tells, or the link answers. There is none where it had to be asked of the link
/// and all calls were made.
pub fn obtain<R: Wait, L: Link, G: Ledger>(
    call: &mut Call<'_, R, G>,
    search: &mut Search,
    link: &mut L,
    aim: &Aim,
    url: &Text,
) -> Result<Option<Place>, Halt>
    requires ready { IsReady aim.now.age call.old search.old }
    ensures uses { UsesCache call.old call.new result }
    ensures link { LinkUsed (link_view L.calls L.link_faults L.web L.gave) link.old link.new search.old search.new result }
    ensures holds { HoldsSoFar aim.now.age search.new call.new.trace.now }
    ensures good { OnOk result (ProvesGood (with_search call.new.trace.now search.new)) }
    ensures source { IfOk result (IsSource aim.now url.now (point_of call.old search.old) (point_of call.new search.new)) }
{
    if let Some(at) = place_of(search.asks.as_slice(), url.as_slice()) {
        return Ok(Some(Place { at, fresh: false }));
    }
    let at = search.asks.len();
    if on_shelf(call, search, aim, url)? {
        return Ok(Some(Place { at, fresh: false }));
    }
    if search.calls >= aim.bounds.calls {
        return Ok(None);
    }
    fetch(call.alloc, search, link, url, aim.bounds.calls)?;
    Ok(Some(Place { at, fresh: true }))
}
