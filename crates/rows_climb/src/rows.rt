// Rows about searches.

ghost use Rattle.std.specs.Prelude.{◌≡◌, []};
ghost use Rattle.rows_climb.specs.Following.{Follows};

use crate::driving::{Case, Counts, Rule, drive};
use crate::names::{entity, path_names};
use crate::web::read_web;
use crate::words::{add_count, add_word, cut};
use chain_climb::{Bounds, End, Path, Session};
use entity_id::EntityId;
use fed_base::{Duplicate, Memory, Text};
use std::alloc::Global;

fn bounds(given: &str) -> Bounds {
    let (depth, given) = cut(given, ' ');
    let (calls, paths) = cut(given, ' ');
    Bounds {
        depth: depth.parse::<u64>().unwrap_or(0),
        calls: calls.parse::<u64>().unwrap_or(0),
        paths: paths.parse::<u64>().unwrap_or(0),
    }
}

fn rule(alloc: Global, given: &str) -> Result<Rule, Memory> {
    match given {
        "all" => Ok(Rule::All),
        "none" => Ok(Rule::None),
        "policies" => Ok(Rule::Policies),
        _ => Ok(Rule::Only(Text::of(alloc, given.as_bytes())?)),
    }
}

fn add_path(alloc: Global, out: &mut Text, path: &Path) -> Result<(), Memory> {
    add_word(out, b"Found")?;
    add_word(out, path_names(alloc, path)?.as_slice())?;
    add_count(alloc, out, path.urls.len() as u64, b"URLs")
}

// Adds a copy of the path.
fn add_found(alloc: Global, out: &mut Text, path: &Path) -> Result<(), Memory> {
    let copy = path.copy(alloc)?;
    let added = add_path(alloc, out, &copy);
    drop(copy);
    added
}

fn add_end(alloc: Global, out: &mut Text, end: &End) -> Result<(), Memory> {
    match end {
        End::Found(path) => add_found(alloc, out, path),
        End::NoLeaf => add_word(out, b"NoLeaf"),
        End::PolicyOnly => add_word(out, b"PolicyOnly"),
        End::NoChain => add_word(out, b"NoChain"),
        End::Budget { calls, paths } => {
            add_word(out, b"Budget")?;
            add_count(alloc, out, *calls, b"calls")?;
            add_count(alloc, out, *paths, b"paths")
        }
    }
}

fn add_told(
    alloc: Global,
    out: &mut Text,
    counts: &Counts,
    calls: u64,
    faults: u64,
    end: &Option<End>,
) -> Result<(), Memory> {
    add_count(alloc, out, counts.pages, b"pages")?;
    add_count(alloc, out, counts.judged, b"judged")?;
    add_count(alloc, out, calls, b"calls")?;
    add_count(alloc, out, faults, b"faults:")?;
    match end {
        Some(end) => add_end(alloc, out, end),
        None => add_word(out, b"no end"),
    }
}

// What is counted and how it ends, in this session.
fn driven(alloc: Global, case: &Case, session: &mut Session) -> Result<Text, Memory>
    requires { Follows session.old [] case.now.calls }
{
    let mut counts = Counts {
        pages: 0,
        judged: 0,
    };
    let end = drive(alloc, case, session, &mut counts)?;
    let mut out = Text::new(alloc);
    let (calls, faults) = (session.calls(), session.faults());
    let added = add_told(alloc, &mut out, &counts, calls, faults, &end);
    drop(end);
    added?;
    Ok(out)
}

// The same from the leaf to the anchor.
fn searched(
    alloc: Global,
    case: &Case,
    leaf: &EntityId,
    anchor: &EntityId,
    bounds: Bounds,
) -> Result<Text, Memory>
    requires { bounds.calls ≡ case.now.calls }
{
    let mut session = Session::start(alloc, leaf, anchor, bounds)?;
    let told = driven(alloc, case, &mut session);
    drop(session);
    told
}

// The same to the anchor with this name.
fn searched_to(
    alloc: Global,
    case: &Case,
    leaf: &EntityId,
    anchor: &str,
    bounds: Bounds,
) -> Result<Text, Memory>
    requires { bounds.calls ≡ case.now.calls }
{
    match entity(alloc, anchor)? {
        Some(anchor) => searched(alloc, case, leaf, &anchor, bounds),
        None => Text::of(alloc, b"no identifier"),
    }
}

// The same between entities with these names.
fn searched_names(alloc: Global, case: &Case, names: &str, bounds: Bounds) -> Result<Text, Memory>
    requires { bounds.calls ≡ case.now.calls }
{
    let (leaf, anchor) = cut(names, ' ');
    match entity(alloc, leaf)? {
        Some(leaf) => searched_to(alloc, case, &leaf, anchor, bounds),
        None => Text::of(alloc, b"no identifier"),
    }
}

/// `search BOUNDS NAMES RULE ENTITY ..`: how many wants of pages and of verdicts there were, the calls and the faults, and the end.
pub(crate) fn search(alloc: Global, given: &str) -> Result<Text, Memory> {
    let (numbers, given) = cut(given, '\t');
    let (names, given) = cut(given, '\t');
    let (chains, web) = cut(given, '\t');
    let (chains, source) = cut(chains, ' ');
    let bounds = bounds(numbers);
    let case = Case {
        web: read_web(alloc, web)?,
        rule: rule(alloc, chains)?,
        cached: source == "cached",
        calls: bounds.calls,
    };
    let told = searched_names(alloc, &case, names, bounds);
    drop(case);
    told
}
