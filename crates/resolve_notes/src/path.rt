// What a person reads of a path up to the trust anchor.

use crate::configurations::{Known, circle_in};
use crate::reading::{belongs, read_at, read_of};
use chain_check::{Verdict, check_chain};
use chain_notes::{Asked, explain_verdict};
use entity_id::EntityId;
use entity_statement::{SignedStatement, Statement};
use fed_base::{Duplicate, OpensLedgers, Plain, Seq, Steps, Text};
use plain_notes::{Notes, Sentence};
use resolve_round::{Ask, ResolveRequest, Search, Trace};
use std::alloc::Global;

// The most statements of superiors in a chain.
const DEPTH: u64 = 8;

// Says what failed on a path up to the trust anchor, that of the anchor's statement which was got last. It may be valid where the search
// ended at its bound before this path was judged.
pub(crate) fn explain_path<R: OpensLedgers>(
    rt: &R,
    alloc: Global,
    request: &ResolveRequest,
    trace: &Trace,
    search: &Search,
    configurations: &[Known],
    notes: &mut Notes,
) {
    let Some(chain) = last_chain(alloc, request, search) else {
        notes.say(no_path_sentence(alloc, request, configurations));
        return;
    };
    let mut steps = Steps {
        ledger: Plain::new(rt),
    };
    let anchor = &request.anchor;
    let checked = check_chain(alloc, &chain, anchor, &trace.keys, trace.moment, &mut steps);
    let Ok(verdict) = checked else {
        return;
    };
    let asked = Asked {
        anchor,
        keys: &trace.keys,
        moment: trace.moment,
    };
    let told: &[u8] = match &verdict {
        Verdict::Valid(_) => b"the search ended before it judged a path that is valid:",
        Verdict::Refused { .. } => b"a path up to the trust anchor is refused:",
    };
    notes.say(path_sentence(alloc, told, chain.as_slice()));
    explain_verdict(alloc, &chain, &asked, &verdict, notes);
}

// That no path came up to the trust anchor, and what of hints is seen to be the cause.
fn no_path_sentence(alloc: Global, request: &ResolveRequest, configurations: &[Known]) -> Sentence {
    let about = Sentence::of(alloc, b"no path came up to ").and(request.anchor.text());
    let leaf = configurations
        .iter()
        .find(|known| known.entity == request.sub);
    match (leaf, circle_in(configurations)) {
        (Some(leaf), _) if leaf.hints.as_slice().is_empty() => about
            .and(b": ")
            .and(request.sub.text())
            .and(b" states no authority_hints"),
        (_, Some(circle)) => about
            .and(b": ")
            .and(circle.subject.text())
            .and(b" and ")
            .and(circle.superior.text())
            .and(b" hint each other"),
        _ => about,
    }
}

// The texts of such a path, from the leaf's configuration up.
fn last_chain(alloc: Global, request: &ResolveRequest, search: &Search) -> Option<Seq<Text>> {
    let mut chain = Seq::new(alloc);
    if has_path(alloc, request, search, &mut chain) {
        Some(chain)
    } else {
        None
    }
}

// Whether there is one, which is added.
fn has_path(
    alloc: Global,
    request: &ResolveRequest,
    search: &Search,
    chain: &mut Seq<Text>,
) -> bool {
    if !add_own(alloc, search, &request.sub, chain) {
        return false;
    }
    if request.sub == request.anchor {
        return true;
    }
    let mut down = Seq::new(alloc);
    add_down(alloc, request, search, &mut down)
        && turn(alloc, down.as_slice(), chain)
        && add_own(alloc, search, &request.anchor, chain)
}

// What stands below a statement of the path.
#[derive(Clone, Copy, Drop)]
enum Below {
    // The leaf.
    Leaf,
    // The statement at this place of the asks.
    At(usize),
    // Nothing that was got, or memory was wanting.
    Nothing,
}

// Adds the statements of the path about others, from the anchor's down, and whether they end at the leaf.
fn add_down(
    alloc: Global,
    request: &ResolveRequest,
    search: &Search,
    down: &mut Seq<Text>,
) -> bool {
    let mut below = last_by(alloc, search, &request.anchor);
    for _ in 0..DEPTH {
        match below {
            Below::At(at) => below = add_at(alloc, request, search, at, down),
            Below::Leaf => return true,
            Below::Nothing => return false,
        }
    }
    matches!(below, Below::Leaf)
}

// Adds the statement at a place of the asks, and says what stands below it.
fn add_at(
    alloc: Global,
    request: &ResolveRequest,
    search: &Search,
    at: usize,
    down: &mut Seq<Text>,
) -> Below {
    let Some(ask) = search.asks.as_slice().get(at) else {
        return Below::Nothing;
    };
    match read_of(alloc, ask) {
        Some(signed) => {
            let below = add_signed(alloc, request, search, &signed, down);
            drop(signed);
            below
        }
        None => Below::Nothing,
    }
}

fn add_signed(
    alloc: Global,
    request: &ResolveRequest,
    search: &Search,
    signed: &SignedStatement,
    down: &mut Seq<Text>,
) -> Below {
    if !add(alloc, &signed.compact.whole, down) {
        return Below::Nothing;
    }
    if signed.statement.sub == request.sub {
        return Below::Leaf;
    }
    first_by(alloc, search, &signed.statement.sub)
}

// Adds the texts in the other order.
fn turn(alloc: Global, down: &[Text], chain: &mut Seq<Text>) -> bool {
    for text in down.iter().rev() {
        if !add(alloc, text, chain) {
            return false;
        }
    }
    true
}

// Adds a text, where memory suffices.
fn add(alloc: Global, text: &Text, chain: &mut Seq<Text>) -> bool {
    match text.copy(alloc) {
        Ok(text) => chain.push(text).is_ok(),
        Err(_) => false,
    }
}

// Adds the text of an entity's configuration.
fn add_own(alloc: Global, search: &Search, entity: &EntityId, chain: &mut Seq<Text>) -> bool {
    let Ok(url) = entity.well_known(alloc) else {
        return false;
    };
    match read_at(alloc, search, &url) {
        Some(signed) => {
            let is_added = signed.statement.sub == *entity
                && add(alloc, &signed.compact.whole, chain);
            drop(signed);
            is_added
        }
        None => false,
    }
}

// The statement about another that was got of the entity first.
fn first_by(alloc: Global, search: &Search, entity: &EntityId) -> Below {
    for (at, ask) in search.asks.as_slice().iter().enumerate() {
        if is_by(alloc, search, ask, entity) {
            return Below::At(at);
        }
    }
    Below::Nothing
}

// The one that was got last.
fn last_by(alloc: Global, search: &Search, entity: &EntityId) -> Below {
    let mut found = Below::Nothing;
    for (at, ask) in search.asks.as_slice().iter().enumerate() {
        if is_by(alloc, search, ask, entity) {
            found = Below::At(at);
        }
    }
    found
}

// Whether a statement that was got there is the entity's about another, and belongs there.
fn is_about_another(
    alloc: Global,
    search: &Search,
    ask: &Ask,
    statement: &Statement,
    entity: &EntityId,
) -> bool {
    statement.iss == *entity && statement.sub != *entity && belongs(alloc, search, ask, statement)
}

// Whether a statement of the entity about another was got there, where it belongs.
fn is_by(alloc: Global, search: &Search, ask: &Ask, entity: &EntityId) -> bool {
    match read_of(alloc, ask) {
        Some(signed) => {
            let is_by = is_about_another(alloc, search, ask, &signed.statement, entity);
            drop(signed);
            is_by
        }
        None => false,
    }
}

// What is told of a path, and the path: who issued the texts of its chain, but for the configuration at its end.
fn path_sentence(alloc: Global, told: &[u8], chain: &[Text]) -> Sentence {
    let mut sentence = Sentence::of(alloc, told);
    for (at, text) in chain.iter().enumerate() {
        if at == 0 || at.saturating_add(1) < chain.len() {
            sentence = with_issuer(alloc, sentence, text);
        }
    }
    sentence
}

fn with_issuer(alloc: Global, sentence: Sentence, text: &Text) -> Sentence {
    match SignedStatement::read(alloc, text.as_slice()) {
        Ok(Some(signed)) => {
            let with_issuer = sentence.and(b" ").and(signed.statement.iss.text());
            drop(signed);
            with_issuer
        }
        Ok(None) | Err(_) => sentence,
    }
}
