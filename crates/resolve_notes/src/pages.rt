// What a person reads of the pages of a round.

use crate::configurations::{Known, fetch_at, wanted_at};
use crate::reading::belongs;
use chain_check::{Reason, Verdict};
use chain_notes::{Asked, NamedKey, explain_verdict};
use entity_statement::{SignedStatement, Statement};
use fed_base::{Duplicate, Seq, Text};
use fed_ports::Page;
use plain_notes::{Notes, Sentence};
use resolve_round::{Ask, Got, Search, Trace, checked};
use std::alloc::Global;

// A round with its call's trace, and the configurations that it got.
#[derive(Clone, Copy, Drop)]
pub(crate) struct Round<'a> {
    pub(crate) trace: &'a Trace,
    pub(crate) search: &'a Search,
    pub(crate) configurations: &'a [Known],
}

// Says of each page of the round why it isn't good.
pub(crate) fn explain_pages(alloc: Global, round: &Round<'_>, notes: &mut Notes) {
    for (at, ask) in round.search.asks.as_slice().iter().enumerate() {
        match &ask.got {
            Got::Fault => notes.say(about(alloc, ask).and(b" couldn't be fetched")),
            Got::Fetched(Page::NoRoute) => explain_no_route(alloc, round, at, ask, notes),
            Got::Fetched(page) => explain_page(alloc, round, ask, page, notes),
            Got::Hit(_) => {},
        }
    }
}

// Says that the host of a URL has no route, once for each host.
fn explain_no_route(alloc: Global, round: &Round<'_>, at: usize, ask: &Ask, notes: &mut Notes) {
    let host = host_of(ask.url.as_slice());
    let earlier = round
        .search
        .asks
        .as_slice()
        .iter()
        .take(at)
        .any(|other| is_unrouted(other, host));
    if !earlier {
        notes.say(
            Sentence::of(alloc, b"there is no route to ")
                .and(host)
                .and(b"; add one to resolver.routes"),
        );
    }
}

fn is_unrouted(ask: &Ask, host: &[u8]) -> bool {
    matches!(ask.got, Got::Fetched(Page::NoRoute)) && host_of(ask.url.as_slice()) == host
}

// The host of a URL, without its port.
fn host_of(url: &[u8]) -> &[u8] {
    let rest = match url.strip_prefix(b"https://") {
        Some(rest) => rest,
        None => url.strip_prefix(b"http://").unwrap_or(url),
    };
    let ends = |byte: &u8| *byte == b'/' || *byte == b':' || *byte == b'?';
    match rest.iter().position(ends) {
        Some(end) => &rest[..end],
        None => rest,
    }
}

// The beginning of a sentence about a page.
fn about(alloc: Global, ask: &Ask) -> Sentence {
    Sentence::of(alloc, ask.url.as_slice())
}

fn explain_page(alloc: Global, round: &Round<'_>, ask: &Ask, page: &Page, notes: &mut Notes) {
    match page {
        Page::Document(text) => explain_document(alloc, round, ask, text, notes),
        Page::Refusal(status) => notes.say(refusal_sentence(alloc, round, ask, *status)),
        Page::Garbled => notes.say(about(alloc, ask).and(b" isn't answered as HTTP is")),
        Page::TooLong => notes.say(about(alloc, ask).and(b" has more than 262,144 bytes")),
        Page::NoRoute => {},
    }
}

// What a status says: of a statement's endpoint 404 says that the entity isn't one of its subordinates.
fn refusal_sentence(alloc: Global, round: &Round<'_>, ask: &Ask, status: u16) -> Sentence {
    match fetch_at(alloc, round.configurations, ask.url.as_slice()) {
        Some(fetch) if status == 404 => Sentence::of(alloc, fetch.superior.text())
            .and(b" doesn't state ")
            .and(fetch.subject.text())
            .and(b" (404): it isn't its subordinate"),
        _ => about(alloc, ask)
            .and(b" is answered with status ")
            .and_number(alloc, u64::from(status)),
    }
}

// A statement that a URL gave.
fn explain_statement(
    alloc: Global,
    round: &Round<'_>,
    ask: &Ask,
    signed: &SignedStatement,
    notes: &mut Notes,
) {
    let statement = &signed.statement;
    if statement.iss == statement.sub {
        explain_own(alloc, round, ask, signed, notes);
    } else if !belongs(alloc, round.search, ask, statement) {
        notes.say(other_sentence(alloc, ask, statement));
    }
}

// A text that isn't the one that is wanted there.
fn other_sentence(alloc: Global, ask: &Ask, statement: &Statement) -> Sentence {
    about(alloc, ask)
        .and(b" has another text, by ")
        .and(statement.iss.text())
        .and(b" about ")
        .and(statement.sub.text())
}

// A configuration that a URL gave: the one that was wanted there, or another's.
fn explain_own(
    alloc: Global,
    round: &Round<'_>,
    ask: &Ask,
    signed: &SignedStatement,
    notes: &mut Notes,
) {
    let there = &signed.statement.iss;
    let wanted = wanted_at(
        alloc,
        &round.search.leaf,
        round.configurations,
        ask.url.as_slice(),
        there,
    );
    match wanted {
        Some(wanted) if wanted.entity == there => {
            explain_configuration(alloc, round, ask, signed, notes);
        }
        Some(wanted) => notes.say(wanted.after(
            about(alloc, ask)
                .and(b" is the configuration of ")
                .and(there.text())
                .and(b"; "),
            there,
        )),
        None => notes.say(other_sentence(alloc, ask, &signed.statement)),
    }
}

// Says why the text that stands at a URL isn't the one that is wanted there.
fn explain_document(alloc: Global, round: &Round<'_>, ask: &Ask, text: &Text, notes: &mut Notes) {
    match SignedStatement::read(alloc, text.as_slice()) {
        Ok(None) => explain_text(alloc, round, ask, text, notes),
        Ok(Some(signed)) => {
            explain_statement(alloc, round, ask, &signed, notes);
            drop(signed);
        }
        Err(_) => {},
    }
}

// Says why the text is no statement.
fn explain_text(alloc: Global, round: &Round<'_>, ask: &Ask, text: &Text, notes: &mut Notes) {
    let Some(chain) = alone(alloc, text) else {
        return;
    };
    let verdict = Verdict::Refused {
        place: 0,
        reason: Reason::Form,
    };
    let asked = Asked {
        anchor: &round.search.leaf,
        keys: &round.trace.keys,
        moment: round.trace.moment,
    };
    notes.say(about(alloc, ask).and(b" has no entity statement:"));
    explain_verdict(alloc, &chain, &asked, &verdict, notes);
}

// A chain of one text.
fn alone(alloc: Global, text: &Text) -> Option<Seq<Text>> {
    let mut chain = Seq::new(alloc);
    let text = text.copy(alloc).ok()?;
    chain.push(text).ok()?;
    Some(chain)
}

// Says why a configuration isn't good. Of a statement about another nothing more is wanted before its chain is judged.
fn explain_configuration(
    alloc: Global,
    round: &Round<'_>,
    ask: &Ask,
    signed: &SignedStatement,
    notes: &mut Notes,
) {
    let statement = &signed.statement;
    let moment = round.trace.moment;
    if statement.exp <= moment {
        notes.say(
            about(alloc, ask)
                .and(b" expired at ")
                .and_moment(alloc, statement.exp),
        );
    } else if !statement.is_current(moment) {
        notes.say(
            about(alloc, ask)
                .and(b" is issued at ")
                .and_moment(alloc, statement.iat)
                .and(b", more than a minute after ")
                .and_moment(alloc, moment),
        );
    } else {
        explain_seal(alloc, round.trace, ask, signed, notes);
        explain_endpoint(alloc, round.search, ask, statement, notes);
    }
}

// Says where a superior names no endpoint for its statements.
fn explain_endpoint(
    alloc: Global,
    search: &Search,
    ask: &Ask,
    statement: &Statement,
    notes: &mut Notes,
) {
    if statement.iss != search.leaf && statement.fetch_endpoint().is_none() {
        notes.say(about(alloc, ask).and(
            b" names no federation_fetch_endpoint, where statements are asked for",
        ));
    }
}

// Says why a configuration isn't sealed by a key of its own.
fn explain_seal(
    alloc: Global,
    trace: &Trace,
    ask: &Ask,
    signed: &SignedStatement,
    notes: &mut Notes,
) {
    let about = about(alloc, ask);
    let own = &signed.statement.jwks;
    let Some(named) = NamedKey::of(&signed.compact) else {
        notes.say(about.and(b" has no kid in its header, the name of the key that signed"));
        return;
    };
    match named.key_in(own) {
        None => notes.say(named.with_other(
            named
                .after(about.and(b" is signed by the "))
                .and(b", which isn't in its own jwks"),
            own,
            b"",
        )),
        Some(public) => {
            let text = signed.compact.whole.as_slice();
            if checked(trace.checks.as_slice(), text, &public) == Some(false) {
                notes.say(named.after(about.and(b": the signature doesn't verify under its own ")));
            }
        }
    }
}
