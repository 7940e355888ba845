// How a search goes on: as far as its answers reach.

ghost use Rattle.std.specs.Prelude.{◌≡◌, ◌<◌, ◌≤◌, ◌+◌, [], length, take, IfOk};
ghost use Rattle.chain_climb.specs.Climbs.{longer, page_named};
ghost use Rattle.chain_climb.specs.Walks.{AllKnown, AreHints, Grows, HasHint, HasPath, HintTried, HintsTried, IsAdded, IsKnown, IsReady, LeafReaches, LevelLooked, Looked, Reaches, RestTried, Resumes, from_to, hint_rest, hints_on, level_of, path_at, path_in, path_rest, route};

use crate::answer::{PageAnswer, Report};
use crate::facing::{Facing, face};
use crate::pages::find_configuration;
use crate::path::Path;
use crate::place::{Place, Stage};
use crate::want::Bounds;
use entity_id::EntityId;
use fed_base::{Duplicate, Memory, Seq, Text};
use std::alloc::Global;

// What a path came to.
#[derive(Clone, Copy, Drop)]
pub enum Look {
    // It goes no further.
    Passed,
    // It ends at the anchor.
    Judge,
    // This hint isn't passed.
    Hint(usize),
}

// The hints of the last entity of a path.
pub fn hints_of<'a>(
    alloc: Global,
    pages: &'a [PageAnswer],
    path: &Path,
) -> Result<&'a [EntityId], Memory>
    requires { IsKnown pages.now path.now }
    ensures { IfOk result (λ hints. AreHints pages.now path.now hints.now) }
{
    match find_configuration(alloc, pages, path.last())? {
        Some(Report::Good(own, _)) => Ok(own.hints.as_slice()),
        _ => unreachable!(),
    }
}

// Tries one hint. Says whether it is passed.
fn try_hint(
    alloc: Global,
    pages: &[PageAnswer],
    most: u64,
    path: &Path,
    hint: &EntityId,
    queue: &mut Seq<Path>,
) -> Result<bool, Memory>
    requires { IsKnown pages.now path.now }
    ensures tried { IfOk result (λ passed. HintTried pages.now most path.now hint.now (from_to queue.old queue.new) passed) }
    ensures grows { Grows queue.old queue.new }
{
    match face(alloc, pages, path, hint)? {
        Facing::Passed => Ok(true),
        Facing::Wants(want) => {
            drop(want);
            Ok(false)
        }
        Facing::Spent => Ok(false),
        Facing::Adds(url) => add_longer(alloc, most, path, hint, url, queue),
    }
}

// Adds the path with this superior more, where there is room. Says whether there is.
fn add_longer(
    alloc: Global,
    most: u64,
    path: &Path,
    superior: &EntityId,
    url: Text,
    queue: &mut Seq<Path>,
) -> Result<bool, Memory>
    ensures added { IfOk result (IsAdded most (longer path.now (page_named superior.now superior.now url)) (from_to queue.old queue.new)) }
    ensures grows { Grows queue.old queue.new }
{
    if most <= queue.len() as u64 {
        return Ok(false);
    }
    let longer = path.longer(alloc, superior, url)?;
    queue.push(longer)?;
    Ok(true)
}

// Tries the hints from this one on. Answers the first that isn't passed, or their number.
fn try_hints(
    alloc: Global,
    pages: &[PageAnswer],
    most: u64,
    path: &Path,
    hints: &[EntityId],
    from: usize,
    queue: &mut Seq<Path>,
) -> Result<usize, Memory>
    requires are { AreHints pages.now path.now hints.now }
    requires within { from ≤ length hints.now }
    ensures tried { IfOk result (λ at. HintsTried pages.now most (hints_on path.now hints.now) from (from_to queue.old queue.new) at) }
    ensures grows { Grows queue.old queue.new }
{
    for at in from..hints.len() {
        if !try_hint(alloc, pages, most, path, &hints[at], queue)? {
            return Ok(at);
        }
    }
    Ok(hints.len())
}

// Tries the hints of a path from this one on. Answers the first that isn't passed.
fn try_rest(
    alloc: Global,
    pages: &[PageAnswer],
    most: u64,
    path: &Path,
    from: usize,
    queue: &mut Seq<Path>,
) -> Result<Option<usize>, Memory>
    requires { HasHint pages.now path.now from }
    ensures tried { IfOk result (RestTried pages.now most path.now from (from_to queue.old queue.new)) }
    ensures grows { Grows queue.old queue.new }
{
    let hints = hints_of(alloc, pages, path)?;
    let at = try_hints(alloc, pages, most, path, hints, from, queue)?;
    if at < hints.len() {
        Ok(Some(at))
    } else {
        Ok(None)
    }
}

// The same of the path at this place.
fn try_rest_at(
    alloc: Global,
    pages: &[PageAnswer],
    most: u64,
    at: usize,
    from: usize,
    queue: &mut Seq<Path>,
) -> Result<Option<usize>, Memory>
    requires within { at < length queue.old }
    requires hint { HasHint pages.now (path_in queue.old at) from }
    ensures tried { IfOk result (RestTried pages.now most (path_in queue.old at) from (from_to queue.old queue.new)) }
    ensures grows { Grows queue.old queue.new }
{
    let path = queue.as_slice()[at].copy(alloc)?;
    try_rest(alloc, pages, most, &path, from, queue)
}

// Looks at one path.
fn look_at_path(
    alloc: Global,
    pages: &[PageAnswer],
    anchor: &EntityId,
    bounds: Bounds,
    path: &Path,
    queue: &mut Seq<Path>,
) -> Result<Look, Memory>
    requires { IsKnown pages.now path.now }
    ensures looked { IfOk result (λ look. Looked pages.now bounds anchor.now path.now (from_to queue.old queue.new) look) }
    ensures grows { Grows queue.old queue.new }
{
    if *path.last() == *anchor {
        return Ok(Look::Judge);
    }
    if path.entities.len() as u64 > bounds.depth {
        return Ok(Look::Passed);
    }
    match try_rest(alloc, pages, bounds.paths, path, 0, queue)? {
        Some(hint) => Ok(Look::Hint(hint)),
        None => Ok(Look::Passed),
    }
}

// Looks at the path at this place.
fn look_at(
    alloc: Global,
    pages: &[PageAnswer],
    anchor: &EntityId,
    bounds: Bounds,
    at: usize,
    queue: &mut Seq<Path>,
) -> Result<Look, Memory>
    requires within { at < length queue.old }
    requires known { IsKnown pages.now (path_in queue.old at) }
    ensures looked { IfOk result (Looked pages.now bounds anchor.now (path_in queue.old at) (from_to queue.old queue.new)) }
    ensures grows { Grows queue.old queue.new }
{
    let path = queue.as_slice()[at].copy(alloc)?;
    look_at_path(alloc, pages, anchor, bounds, &path, queue)
}

// Looks at the paths of this level from this one on.
fn look_level(
    alloc: Global,
    pages: &[PageAnswer],
    anchor: &EntityId,
    bounds: Bounds,
    from: usize,
    level_end: usize,
    left: u64,
    queue: &mut Seq<Path>,
) -> Result<Option<Place>, Memory>
    requires known { AllKnown pages.now queue.old }
    requires from { from ≤ level_end }
    requires within { level_end ≤ length queue.old }
    ensures looked { IfOk result (λ place. LevelLooked pages.now bounds anchor.now (level_of from level_end left) (from_to queue.old queue.new) place) }
    ensures grows { Grows queue.old queue.new }
{
    for at in from..level_end {
        let here = Place {
            stage: Stage::Judge,
            at,
            hint: 0,
            level_end,
            left,
        };
        match look_at(alloc, pages, anchor, bounds, at, queue)? {
            Look::Passed => {}
            Look::Judge => return Ok(Some(here)),
            Look::Hint(hint) => {
                return Ok(Some(Place {
                    stage: Stage::Hint,
                    hint,
                    ..here
                }));
            }
        }
    }
    Ok(None)
}

// Looks at the paths of this level from this one on, and then at the levels that follow, up to the first that has no path.
fn look_levels(
    alloc: Global,
    pages: &[PageAnswer],
    anchor: &EntityId,
    bounds: Bounds,
    from: usize,
    level_end: usize,
    left: u64,
    queue: &mut Seq<Path>,
) -> Result<Place, Memory>
    requires known { AllKnown pages.now queue.old }
    requires from { from ≤ level_end }
    requires within { level_end ≤ length queue.old }
    ensures reached { IfOk result (Reaches anchor.now bounds pages.now (path_rest anchor.now bounds.depth queue.old from level_end left) (from_to queue.old queue.new)) }
    ensures grows { Grows queue.old queue.new }
{
    let mut first = from;
    let mut end = level_end;
    let mut more = left;
    'levels: loop {
        if let Some(place) = look_level(alloc, pages, anchor, bounds, first, end, more, queue)? {
            return Ok(place);
        }
        // Where a level has no path, none follows.
        let next_end = queue.len();
        if more == 0 || next_end == end {
            return Ok(Place {
                stage: Stage::Ended,
                at: 0,
                hint: 0,
                level_end: 0,
                left: 0,
            });
        }
        first = end;
        end = next_end;
        more -= 1;
    }
}

// Goes on behind the path at hand.
pub fn go_on_behind(
    alloc: Global,
    pages: &[PageAnswer],
    anchor: &EntityId,
    bounds: Bounds,
    place: Place,
    queue: &mut Seq<Path>,
) -> Result<Place, Memory>
    requires known { AllKnown pages.now queue.old }
    requires at { HasPath queue.old place }
    ensures reached { IfOk result (Reaches anchor.now bounds pages.now (path_rest anchor.now bounds.depth queue.old (place.at + 1) place.level_end place.left) (from_to queue.old queue.new)) }
    ensures grows { Grows queue.old queue.new }
{
    look_levels(
        alloc,
        pages,
        anchor,
        bounds,
        place.at + 1,
        place.level_end,
        place.left,
        queue,
    )
}

// Goes on from the hint at hand.
pub fn go_on_from_hint(
    alloc: Global,
    pages: &[PageAnswer],
    anchor: &EntityId,
    bounds: Bounds,
    place: Place,
    queue: &mut Seq<Path>,
) -> Result<Place, Memory>
    requires known { AllKnown pages.now queue.old }
    requires at { HasPath queue.old place }
    requires hint { HasHint pages.now (path_at queue.old place) place.hint }
    ensures reached { IfOk result (Reaches anchor.now bounds pages.now (hint_rest anchor.now bounds.depth queue.old (path_at queue.old place) place.hint place.at place.level_end place.left) (from_to queue.old queue.new)) }
    ensures grows { Grows queue.old queue.new }
{
    match try_rest_at(alloc, pages, bounds.paths, place.at, place.hint, queue)? {
        Some(hint) => Ok(Place {
            stage: Stage::Hint,
            hint,
            ..place
        }),
        None => go_on_behind(alloc, pages, anchor, bounds, place, queue),
    }
}

// Goes on from the leaf's configuration.
pub fn go_on_from_leaf(
    alloc: Global,
    pages: &[PageAnswer],
    leaf: &EntityId,
    anchor: &EntityId,
    bounds: Bounds,
    queue: &mut Seq<Path>,
) -> Result<Place, Memory>
    requires { queue.old ≡ [] }
    ensures reached { IfOk result (LeafReaches leaf.now anchor.now bounds pages.now queue.new) }
    ensures grows { Grows queue.old queue.new }
{
    let here = Place {
        stage: Stage::Leaf,
        at: 0,
        hint: 0,
        level_end: 0,
        left: 0,
    };
    let ended = Place {
        stage: Stage::Ended,
        ..here
    };
    match find_configuration(alloc, pages, leaf)? {
        None => Ok(here),
        Some(Report::Spent) => Ok(here),
        Some(Report::Good(_, _)) => {
            if bounds.paths == 0 {
                return Ok(here);
            }
            queue.push(Path::alone(alloc, leaf)?)?;
            look_levels(alloc, pages, anchor, bounds, 0, 1, bounds.depth, queue)
        }
        Some(Report::Useless(_)) => Ok(ended),
        Some(Report::Fault) => Ok(ended),
    }
}

// Goes on from a place at which a page was wanted.
pub fn go_on(
    alloc: Global,
    pages: &[PageAnswer],
    leaf: &EntityId,
    anchor: &EntityId,
    bounds: Bounds,
    place: Place,
    queue: &mut Seq<Path>,
) -> Result<Place, Memory>
    requires known { AllKnown pages.now queue.old }
    requires ready { IsReady place.stage pages.now queue.old place }
    ensures resumed { IfOk result (Resumes (route leaf.now anchor.now) bounds pages.now (from_to queue.old queue.new) place) }
    ensures grows { Grows queue.old queue.new }
{
    match place.stage {
        Stage::Leaf => go_on_from_leaf(alloc, pages, leaf, anchor, bounds, queue),
        Stage::Hint => go_on_from_hint(alloc, pages, anchor, bounds, place, queue),
        Stage::Judge => unreachable!(),
        Stage::Found => unreachable!(),
        Stage::Ended => unreachable!(),
    }
}

// Keeps the first items.
pub fn shrink<T: Drop>(items: &mut Seq<T>, count: usize)
    requires { count ≤ length items.old }
    ensures { items.new ≡ take count items.old }
{
    while items.len() > count {
        let _ = items.pop();
    }
}
