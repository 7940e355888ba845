// Answers to the wants of pages.

ghost use Rattle.std.specs.Prelude.{◌≡◌, ◌++◌, ℕ, Some, true, false, bytes_eq, IfOk, OnOk};
ghost use Rattle.entity_statement.specs.Claims.{Identifier};
ghost use Rattle.entity_statement.specs.Signed.{IsSplit, statement_of};
ghost use Rattle.entity_statement.specs.Told.{told};
ghost use Rattle.chain_climb.specs.Climbs.{page_named};
ghost use Rattle.chain_climb.specs.Elements.{Among};
ghost use Rattle.resolve_search.specs.Answering.{IsPageReport, IsRead, IsUseless, TellsAsk, is_link, passes_as, put_of, was_called};
ghost use Rattle.resolve_search.specs.Calls.{Keeps};
ghost use Rattle.resolve_round.specs.Calls.{HasPass, IsReady, Tests, point_of};
ghost use Rattle.resolve_round.specs.Courses.{is_hit};
ghost use Rattle.resolve_round.specs.Linking.{LinkUsed, link_view};
ghost use Rattle.resolve_round.specs.Knowing.{AnswersStand};
ghost use Rattle.resolve_round.specs.Testing.{KeepsGood, KeepsTrue};
ghost use Rattle.resolve_round.specs.Traces.{looks_in, puts_in};

use chain_climb::{Answer, Origin};
use entity_id::EntityId;
use entity_statement::{SignedStatement, Statement};
use fed_base::{Ledger, Text};
use fed_ports::Link;
use resolve_round::{Aim, Ask, Call, Got, Halt, Search, keep_new, obtain, read_got, seals_itself};
use std::sync::Wait;

// A page that a session wants: who issues it and whom it is about, and where it stands.
#[derive(Clone, Copy)]
pub(crate) struct WantedPage<'a> {
    pub(crate) issuer: &'a EntityId,
    pub(crate) subject: &'a EntityId,
    pub(crate) url: &'a Text,
}

// Where it was got.
fn origin_of(got: &Got) -> Origin
    ensures { is_link result ≡ was_called got.now }
{
    match got {
        Got::Hit(_) => Origin::Shelf,
        _ => Origin::Link,
    }
}

// The answer where no statement of the names was got.
fn useless(got: &Got) -> Answer
    ensures { IsUseless got.now result }
{
    match got {
        Got::Fault => Answer::Fault,
        Got::Hit(_) => Answer::Useless(Origin::Shelf),
        Got::Fetched(_) => Answer::Useless(Origin::Link),
    }
}

// Whether a statement of these names is good: a configuration must be current and sealed by its own keys (OpenID Federation 1.0 section 9).
fn passes<R: Wait, G: Ledger>(
    call: &mut Call<'_, R, G>,
    own: bool,
    url: &Text,
    signed: &SignedStatement,
) -> Result<bool, Halt>
    requires of { HasPass call.old }
    requires split { IsSplit signed.now }
    requires reads { statement_of signed.now.compact.whole ≡ Some (told signed.now.statement) }
    requires answers { AnswersStand call.old.trace.now.checks }
    ensures tests { Tests G.count call.old call.new result }
    ensures passes { IfOk result (λ good. good ≡ passes_as own call.old.trace.now.moment signed.now.compact.whole (told signed.now.statement)) }
    ensures stays_true { KeepsTrue url.now signed.now.compact.whole call.old.trace.now call.new.trace.now }
    ensures proved { OnOk result (KeepsGood url.now signed.now.compact.whole call.old.trace.now call.new.trace.now) }
{
    if !own {
        return Ok(true);
    }
    if !signed.statement.is_current(call.trace.moment) {
        return Ok(false);
    }
    seals_itself(call, url, signed)
}

// Keeps a statement of the wanted names, where it was fetched now, and tells whether it is good.
fn try_read<R: Wait, G: Ledger>(
    call: &mut Call<'_, R, G>,
    age: u64,
    search: &Search,
    ask: &Ask,
    fresh: bool,
    issuer: &EntityId,
    subject: &EntityId,
    signed: &SignedStatement,
) -> Result<bool, Halt>
    requires ready { IsReady age call.old search.now }
    requires among { Among ask.now search.now.asks }
    requires fetched { fresh ≡ true → is_hit ask.now ≡ false }
    requires read { IsRead issuer.now subject.now ask.now signed.now }
    requires split { IsSplit signed.now }
    ensures keeps { Keeps G.count age search.now call.old call.new result }
    ensures looks { OnOk result (looks_in call.new.trace.now.events ≡ looks_in call.old.trace.now.events) }
    ensures puts { OnOk result (puts_in call.new.trace.now.events ≡ puts_in call.old.trace.now.events
        ++ put_of fresh call.old.trace.now.moment age (page_named issuer.now subject.now ask.now.url) ask.now) }
    ensures passes { IfOk result (λ good. good
        ≡ passes_as (bytes_eq issuer.now subject.now) call.old.trace.now.moment signed.now.compact.whole (told signed.now.statement)) }
{
    keep_new(call, age, fresh, &ask.url, signed)?;
    let own = is_own(issuer, subject);
    let good = passes(call, own, &ask.url, signed)?;
    Ok(good)
}

// The statement, without its text.
fn statement_of(signed: SignedStatement) -> Statement
    ensures { result ≡ signed.statement }
{
    signed.statement
}

// What a round says of a statement of the wanted names.
fn answer_read(signed: SignedStatement, good: bool, ask: &Ask) -> Answer
    ensures { (t : ℕ) (issuer subject : Identifier) → IsRead issuer subject ask.now signed
        → good ≡ passes_as (bytes_eq issuer subject) t signed.compact.whole (told signed.statement)
        → TellsAsk t (page_named issuer subject ask.now.url) ask.now result }
{
    let origin = origin_of(&ask.got);
    if good {
        Answer::Good(statement_of(signed), origin)
    } else {
        drop(signed);
        Answer::Useless(origin)
    }
}

// Whether a page of these names is a configuration.
fn is_own(issuer: &EntityId, subject: &EntityId) -> bool
    ensures { result ≡ bytes_eq issuer.now subject.now }
{
    *issuer == *subject
}

// What a round says of the page of these names by an ask.
fn report_on<R: Wait, G: Ledger>(
    call: &mut Call<'_, R, G>,
    age: u64,
    search: &Search,
    ask: &Ask,
    fresh: bool,
    issuer: &EntityId,
    subject: &EntityId,
) -> Result<Answer, Halt>
    requires ready { IsReady age call.old search.now }
    requires among { Among ask.now search.now.asks }
    requires fetched { fresh ≡ true → is_hit ask.now ≡ false }
    ensures keeps { Keeps G.count age search.now call.old call.new result }
    ensures looks { OnOk result (looks_in call.new.trace.now.events ≡ looks_in call.old.trace.now.events) }
    ensures puts { OnOk result (puts_in call.new.trace.now.events ≡ puts_in call.old.trace.now.events
        ++ put_of fresh call.old.trace.now.moment age (page_named issuer.now subject.now ask.now.url) ask.now) }
    ensures tells { IfOk result (TellsAsk call.old.trace.now.moment (page_named issuer.now subject.now ask.now.url) ask.now) }
{
    match read_got(call.alloc, &ask.got, issuer, subject)? {
        Some(signed) => {
            let good = match try_read(call, age, search, ask, fresh, issuer, subject, &signed) {
                Ok(good) => good,
                Err(halt) => {
                    drop(signed);
                    return Err(halt);
                }
            };
            Ok(answer_read(signed, good, ask))
        }
        None => Ok(useless(&ask.got)),
    }
}

// The answer to the want of a page, and none where it had to be asked of the link and all calls were made.
pub(crate) fn answer_page<R: Wait, L: Link, G: Ledger>(
    call: &mut Call<'_, R, G>,
    search: &mut Search,
    link: &mut L,
    aim: &Aim,
    page: &WantedPage<'_>,
) -> Result<Option<Answer>, Halt>
    requires ready { IsReady aim.now.age call.old search.old }
    ensures keeps { Keeps G.count aim.now.age search.new call.old call.new result }
    ensures link { LinkUsed (link_view L.calls L.link_faults L.web L.gave) link.old link.new search.old search.new result }
    ensures report { IfOk result (IsPageReport aim.now (page_named page.now.issuer.now page.now.subject.now page.now.url.now) (point_of call.old search.old) (point_of call.new search.new)) }
{
    let Some(place) = obtain(call, search, link, aim, page.url)? else {
        return Ok(None);
    };
    let ask = &search.asks.as_slice()[place.at];
    let answer = report_on(
        call,
        aim.age,
        search,
        ask,
        place.fresh,
        page.issuer,
        page.subject,
    )?;
    Ok(Some(answer))
}
