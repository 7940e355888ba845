// A search round.

ghost use Rattle.std.specs.Prelude.{◌≡◌, ◌≤◌, length, true, Some, None, IfOk, OnOk};
ghost use Rattle.chain_climb.specs.Climbs.{page_named};
ghost use Rattle.chain_climb.specs.Wants.{HasMade, next_want};
ghost use Rattle.chain_climb.specs.declared.want.End.TheVariants.{Budget, Found};
ghost use Rattle.resolve_round.specs.Linking.{LinkSeen, LinkUsed, UsesLink, link_view};
ghost use Rattle.resolve_round.specs.Told.{IsTrueSoFar, ProvesGood};
ghost use Rattle.resolve_round.specs.Calls.{Acts, Counted, HasPass, IsReady, point_of};
ghost use Rattle.resolve_search.specs.Calls.{Keeps};
ghost use Rattle.resolve_search.specs.Turning.{Grows, HasRound, IsRoundEnd, RoundUsed, SameBut, Turns, UnderWay, WantsPageNow, WantsVerdictNow, blank, ended_as};

use crate::answering::{WantedPage, answer_page};
use crate::judging::{Ruling, judge_path};
use chain_check::{Resolved, Tried};
use chain_climb::{Answer, End, Path, Session, Want};
use fed_base::{Duplicate, Ledger, Memory, Seq};
use fed_ports::Link;
use resolve_round::{Aim, Call, Halt, Search};
use std::alloc::Global;
use std::sync::Wait;

/// The chain that a round found.
#[derive(Drop)]
pub struct FoundChain {
    /// Its texts, the leaf's first, with the keys under which they are known to verify.
    pub texts: Seq<Tried>,
    /// What it resolves to.
    pub resolved: Resolved,
}

/// What a round came to.
#[derive(Drop)]
pub struct RoundEnd {
    /// How the search ended.
    pub end: End,
    /// The chain, exactly where one was found.
    pub chain: Option<FoundChain>,
}

/// Drives one search to its end, and tells it in the trace. After a `Halt` what stands in the trace is true.
pub fn search_round<R: Wait, L: Link, G: Ledger>(
    call: &mut Call<'_, R, G>,
    link: &mut L,
    aim: &Aim,
) -> Result<RoundEnd, Halt>
    requires of { HasPass call.old }
    requires told { IsTrueSoFar aim.now.age call.old.trace.now }
    requires good { ProvesGood call.old.trace.now }
    ensures acts { Acts call.old call.new result }
    // The call stays; a round is added, at most.
    ensures call { SameBut call.old.trace.now call.new.trace.now }
    // What stands in the trace is true, whatever the result.
    ensures told { IsTrueSoFar aim.now.age call.new.trace.now }
    ensures good { OnOk result (ProvesGood call.new.trace.now) }
    // The round is one of the search, ended as the result says, and made the calls on the cache that it calls for.
    ensures round { IfOk result (HasRound aim.now call.old.trace.now call.new.trace.now) }
    // The asks of the round got what the link gave, which was called as often as the round counts, and once more at most where memory was
    // wanting.
    ensures link { RoundUsed (link_view L.calls L.link_faults L.web L.gave) link.old link.new call.old.trace.now call.new.trace.now result }
    ensures counted { Counted G.count call.old call.new }
{
    let mut search = begun(call.alloc, aim)?;
    let at = call.trace.searches.len();
    call.trace.searches.push(begun(call.alloc, aim)?)?;
    let result = drive(call, &mut search, link, aim);
    call.trace.searches.set(at, search);
    result
}

// The round that has asked nothing yet.
fn begun(alloc: Global, aim: &Aim) -> Result<Search, Memory>
    ensures { IfOk result (λ search. search ≡ blank aim.now.leaf) }
{
    Ok(Search {
        leaf: aim.leaf.copy(alloc)?,
        asks: Seq::new(alloc),
        hits: 0,
        calls: 0,
        paths: 0,
        faults: 0,
        ended: false,
    })
}

// Answers what the session wants, until it wants nothing more. Each turn gives it an answer to a page that it hadn't, or a verdict on a
// path that it hadn't.
fn drive<R: Wait, L: Link, G: Ledger>(
    call: &mut Call<'_, R, G>,
    search: &mut Search,
    link: &mut L,
    aim: &Aim,
) -> Result<RoundEnd, Halt>
    requires ready { IsReady aim.now.age call.old search.old }
    requires begun { search.old ≡ blank aim.now.leaf }
    ensures keeps { Keeps G.count aim.now.age search.new call.old call.new result }
    ensures link { LinkUsed (link_view L.calls L.link_faults L.web L.gave) link.old link.new search.old search.new result }
    ensures round { IfOk result (IsRoundEnd aim.now call.old.trace.now (point_of call.new search.new)) }
{
    let mut session = Session::start(call.alloc, &aim.leaf, &aim.anchor, aim.bounds)?;
    loop {
        // A session has fewer than 2^64 answers to pages, and no more verdicts than paths may be made, so that the turns end.
        let _answers = session.answers();
        if let Some(end) = step(call, search, link, aim, &mut session)? {
            return Ok(end);
        }
    }
}

// One turn: the end of the round, where it is there.
fn step<R: Wait, L: Link, G: Ledger>(
    call: &mut Call<'_, R, G>,
    search: &mut Search,
    link: &mut L,
    aim: &Aim,
    session: &mut Session,
) -> Result<Option<RoundEnd>, Halt>
    requires ready { IsReady aim.now.age call.old search.old }
    requires under { UnderWay aim.now (point_of call.old search.old) session.old }
    ensures keeps { Keeps G.count aim.now.age search.new call.old call.new result }
    ensures link { LinkUsed (link_view L.calls L.link_faults L.web L.gave) link.old link.new search.old search.new result }
    ensures turn { IfOk result (Turns aim.now (point_of call.old search.old) session.old (point_of call.new search.new) session.new) }
    ensures grows { IfOk result (Grows session.old session.new) }
    ensures few { OnOk result (length session.old.verdicts ≤ session.old.bounds.paths) }
{
    match session.next(call.alloc)? {
        Want::Config { entity, url } => {
            let page = WantedPage {
                issuer: &entity,
                subject: &entity,
                url: &url,
            };
            take_page(call, search, link, aim, session, &page)
        }
        Want::Superior {
            superior,
            subject,
            url,
        } => {
            let page = WantedPage {
                issuer: &superior,
                subject: &subject,
                url: &url,
            };
            take_page(call, search, link, aim, session, &page)
        }
        Want::Judge(path) => take_path(call, search, aim, session, path),
        Want::Done(end) => Ok(Some(done(search, session, end))),
    }
}

// Answers the want of a page, and ends the round where all calls were made. The page isn't answered to the session then, whose next step it
// stays.
fn take_page<R: Wait, L: Link, G: Ledger>(
    call: &mut Call<'_, R, G>,
    search: &mut Search,
    link: &mut L,
    aim: &Aim,
    session: &mut Session,
    page: &WantedPage<'_>,
) -> Result<Option<RoundEnd>, Halt>
    requires ready { IsReady aim.now.age call.old search.old }
    requires under { UnderWay aim.now (point_of call.old search.old) session.old }
    requires wants { WantsPageNow session.old (page_named page.now.issuer.now page.now.subject.now page.now.url.now) }
    ensures keeps { Keeps G.count aim.now.age search.new call.old call.new result }
    ensures link { LinkUsed (link_view L.calls L.link_faults L.web L.gave) link.old link.new search.old search.new result }
    ensures turn { IfOk result (Turns aim.now (point_of call.old search.old) session.old (point_of call.new search.new) session.new) }
    ensures grows { IfOk result (Grows session.old session.new) }
{
    match answer_page(call, search, link, aim, page)? {
        Some(answer) => {
            session.give(call.alloc, answer)?;
            Ok(None)
        }
        None => Ok(Some(spent(search, session))),
    }
}

// Gives the verdict on a path, and ends the round at a valid one. That isn't given to the session, whose next step it stays.
fn take_path<R: Wait, G: Ledger>(
    call: &mut Call<'_, R, G>,
    search: &mut Search,
    aim: &Aim,
    session: &mut Session,
    path: Path,
) -> Result<Option<RoundEnd>, Halt>
    requires ready { IsReady aim.now.age call.old search.old }
    requires under { UnderWay aim.now (point_of call.old search.old) session.old }
    requires wants { WantsVerdictNow session.old path }
    ensures keeps { Keeps G.count aim.now.age search.new call.old call.new result }
    ensures asks { search.new.asks ≡ search.old.asks }
    ensures unused { (seen : LinkSeen) → UsesLink 0 seen seen search.old search.new }
    ensures turn { IfOk result (Turns aim.now (point_of call.old search.old) session.old (point_of call.new search.new) session.new) }
    ensures grows { IfOk result (Grows session.old session.new) }
{
    match judge_path(call, search, aim, path.urls.as_slice())? {
        Ruling::Valid(texts, resolved) => Ok(Some(found(search, session, path, texts, resolved))),
        Ruling::PolicyFails => {
            session.give(call.alloc, Answer::PolicyFails)?;
            Ok(None)
        }
        Ruling::Invalid => {
            session.give(call.alloc, Answer::Invalid)?;
            Ok(None)
        }
    }
}

// The end at a valid path.
fn found(
    search: &mut Search,
    session: &Session,
    path: Path,
    texts: Seq<Tried>,
    resolved: Resolved,
) -> RoundEnd
    ensures end { result ≡ record { end = Found path; chain = Some (record { texts = texts; resolved = resolved }) } }
    ensures paths { HasMade session.now (next_want session.now) search.new.paths }
    ensures search { search.new ≡ record search.old { paths = search.new.paths } }
{
    search.paths = session.paths();
    RoundEnd {
        end: End::Found(path),
        chain: Some(FoundChain { texts, resolved }),
    }
}

// The end where all calls were made.
fn spent(search: &mut Search, session: &Session) -> RoundEnd
    ensures end { result ≡ record { end = Budget search.old.calls search.new.paths; chain = None } }
    ensures paths { HasMade session.now (next_want session.now) search.new.paths }
    ensures search { search.new ≡ record search.old { paths = search.new.paths; ended = true } }
{
    search.paths = session.paths();
    search.ended = true;
    RoundEnd {
        end: End::Budget {
            calls: search.calls,
            paths: search.paths,
        },
        chain: None,
    }
}

// The end of the session.
fn done(search: &mut Search, session: &Session, end: End) -> RoundEnd
    ensures end { result ≡ record { end = end; chain = None } }
    ensures paths { HasMade session.now (next_want session.now) search.new.paths }
    ensures search { search.new ≡ record search.old { paths = search.new.paths; ended = ended_as end search.old.ended } }
{
    search.paths = session.paths();
    search.ended = has_ended(&end, search.ended);
    RoundEnd { end, chain: None }
}

// Whether a round has ended at a bound, where it had or hadn't before.
fn has_ended(end: &End, before: bool) -> bool
    ensures { result ≡ ended_as end.now before }
{
    match end {
        End::Budget { calls: _, paths: _ } => true,
        _ => before,
    }
}
