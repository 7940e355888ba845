// A search that is driven to its end.

ghost use Rattle.std.specs.Prelude.{◌≡◌, ℕ, Bool, bytes_eq, nat_le, not, ◌&&◌, IfOk, OnOk, [], map};
ghost use Rattle.std.specs.List.{list_any};
ghost use Rattle.chain_climb.specs.Sessions.{FitsPage, IsVerdict, report_in};
ghost use Rattle.chain_climb.specs.Wants.{next_want};
ghost use Rattle.rows_climb.specs.Following.{Follows, WantsUrl};

use crate::names::path_names;
use crate::web::{Entry, Page, configuration_page, statement_page};
use chain_climb::{Answer, End, Origin, Path, Session, Want};
use entity_id::EntityId;
use fed_base::{Memory, Seq, Text};
use std::alloc::Global;

/// Which chains are valid.
#[derive(Drop)]
pub(crate) enum Rule {
    All,
    None,
    // None, and each fails by its policies alone.
    Policies,
    // That of the path with these names.
    Only(Text),
}

/// What a search is answered by.
#[derive(Drop)]
pub(crate) struct Case {
    pub web: Seq<Entry>,
    pub rule: Rule,
    // Each page comes from the cache.
    pub cached: bool,
    // How many URLs the link may be asked for.
    pub calls: u64,
}

/// What is counted.
#[derive(Drop)]
pub(crate) struct Counts {
    pub pages: u64,
    pub judged: u64,
}

fn verdict(alloc: Global, case: &Case, path: &Path) -> Result<Answer, Memory>
    ensures { IfOk result IsVerdict }
{
    match &case.rule {
        Rule::All => Ok(Answer::Valid),
        Rule::None => Ok(Answer::Invalid),
        Rule::Policies => Ok(Answer::PolicyFails),
        Rule::Only(names) => {
            let shown = path_names(alloc, path)?;
            if shown.as_slice() == names.as_slice() {
                Ok(Answer::Valid)
            } else {
                Ok(Answer::Invalid)
            }
        }
    }
}

fn judged(alloc: Global, case: &Case, path: Path) -> Result<Answer, Memory>
    ensures { IfOk result IsVerdict }
{
    let answer = verdict(alloc, case, &path);
    drop(path);
    answer
}

fn is_among(urls: &Seq<Text>, url: &Text) -> bool
    ensures { result ≡ list_any (bytes_eq url.now) urls.now }
{
    urls.as_slice()
        .iter()
        .any(|other| url.as_slice() == other.as_slice())
}

fn is_spent(known: bool, calls: u64, most: u64) -> bool
    ensures { result ≡ (not known && nat_le most calls) }
{
    !known && most <= calls
}

fn from_cache(page: Page) -> Answer
    ensures { (known : Bool) (calls most : ℕ) → FitsPage known calls most (report_in result) }
{
    match page {
        Page::Good(statement) => Answer::Good(statement, Origin::Shelf),
        Page::Useless => Answer::Useless(Origin::Shelf),
        Page::Fault => Answer::Useless(Origin::Shelf),
    }
}

fn from_link(page: Page, known: bool, calls: u64, most: u64) -> Answer
    ensures { FitsPage known calls most (report_in result) }
{
    if is_spent(known, calls, most) {
        drop(page);
        return Answer::Spent;
    }
    match page {
        Page::Good(statement) => Answer::Good(statement, Origin::Link),
        Page::Useless => Answer::Useless(Origin::Link),
        Page::Fault => Answer::Fault,
    }
}

fn answer_of(page: Page, case: &Case, known: bool, calls: u64) -> Answer
    ensures { FitsPage known calls case.now.calls (report_in result) }
{
    if case.cached {
        from_cache(page)
    } else {
        from_link(page, known, calls, case.calls)
    }
}

// Answers the want of the page at the URL.
fn take(
    alloc: Global,
    case: &Case,
    session: &mut Session,
    urls: &mut Seq<Text>,
    url: Text,
    page: Page,
) -> Result<(), Memory>
    requires follows { Follows session.old urls.old case.now.calls }
    requires wants { WantsUrl (next_want session.old) url }
    ensures { OnOk result (Follows session.new urls.new case.now.calls) }
{
    let known = is_among(urls, &url);
    let answer = answer_of(page, case, known, session.calls());
    session.give(alloc, answer)?;
    urls.push(url)
}

// Answers the want of the entity's configuration.
fn take_configuration(
    alloc: Global,
    case: &Case,
    session: &mut Session,
    urls: &mut Seq<Text>,
    entity: EntityId,
    url: Text,
) -> Result<(), Memory>
    requires follows { Follows session.old urls.old case.now.calls }
    requires wants { WantsUrl (next_want session.old) url }
    ensures { OnOk result (Follows session.new urls.new case.now.calls) }
{
    let page = configuration_page(alloc, &case.web, &entity, &url);
    drop(entity);
    take(alloc, case, session, urls, url, page?)
}

// Answers the want of the superior's statement about the subject.
fn take_statement(
    alloc: Global,
    case: &Case,
    session: &mut Session,
    urls: &mut Seq<Text>,
    superior: EntityId,
    subject: EntityId,
    url: Text,
) -> Result<(), Memory>
    requires follows { Follows session.old urls.old case.now.calls }
    requires wants { WantsUrl (next_want session.old) url }
    ensures { OnOk result (Follows session.new urls.new case.now.calls) }
{
    let page = statement_page(alloc, &case.web, &superior, &subject);
    drop(superior);
    drop(subject);
    take(alloc, case, session, urls, url, page?)
}

// Answers what is wanted next. Gives the end where there is one.
fn step(
    alloc: Global,
    case: &Case,
    session: &mut Session,
    urls: &mut Seq<Text>,
    counts: &mut Counts,
) -> Result<Option<End>, Memory>
    requires { Follows session.old urls.old case.now.calls }
    ensures { OnOk result (Follows session.new urls.new case.now.calls) }
{
    match session.next(alloc)? {
        Want::Config { entity, url } => {
            counts.pages = counts.pages.saturating_add(1);
            take_configuration(alloc, case, session, urls, entity, url)?;
            Ok(None)
        }
        Want::Superior {
            superior,
            subject,
            url,
        } => {
            counts.pages = counts.pages.saturating_add(1);
            take_statement(alloc, case, session, urls, superior, subject, url)?;
            Ok(None)
        }
        Want::Judge(path) => {
            let answer = judged(alloc, case, path)?;
            counts.judged = counts.judged.saturating_add(1);
            session.give(alloc, answer)?;
            Ok(None)
        }
        Want::Done(end) => Ok(Some(end)),
    }
}

/// How the search ends, where it does within so many answers as no row needs.
pub(crate) fn drive(
    alloc: Global,
    case: &Case,
    session: &mut Session,
    counts: &mut Counts,
) -> Result<Option<End>, Memory>
    requires { Follows session.old [] case.now.calls }
{
    let mut urls = Seq::new(alloc);
    'answers: for _ in 0..100_000 {
        if let Some(end) = step(alloc, case, session, &mut urls, counts)? {
            return Ok(Some(end));
        }
    }
    Ok(None)
}
