// The statements that a round got.

use entity_id::{EntityId, fetch_url};
use entity_statement::{SignedStatement, Statement};
use fed_base::Text;
use resolve_round::{Ask, Search, text_got};
use std::alloc::Global;

// Whether a statement of these names is asked for at the URL.
pub(crate) fn belongs(alloc: Global, search: &Search, ask: &Ask, statement: &Statement) -> bool {
    match place_of(alloc, search, statement) {
        Some(url) => url.as_slice() == ask.url.as_slice(),
        None => false,
    }
}

// The URL at which a statement of these names is asked for.
fn place_of(alloc: Global, search: &Search, statement: &Statement) -> Option<Text> {
    let own = statement.iss.well_known(alloc).ok()?;
    if statement.iss == statement.sub {
        return Some(own);
    }
    let issuer = read_at(alloc, search, &own)?;
    let place = if issuer.statement.iss == statement.iss {
        place_by(alloc, &issuer.statement, &statement.sub)
    } else {
        None
    };
    drop(issuer);
    place
}

// The URL at which an entity of this configuration is asked for its statement about the subject.
fn place_by(alloc: Global, issuer: &Statement, subject: &EntityId) -> Option<Text> {
    let endpoint = issuer.fetch_endpoint()?;
    fetch_url(alloc, endpoint, subject).ok()
}

// The statement that was got at the URL.
pub(crate) fn read_at(alloc: Global, search: &Search, url: &Text) -> Option<SignedStatement> {
    for ask in search.asks.as_slice() {
        if ask.url.as_slice() == url.as_slice() {
            return read_of(alloc, ask);
        }
    }
    None
}

pub(crate) fn read_of(alloc: Global, ask: &Ask) -> Option<SignedStatement> {
    let text = text_got(&ask.got)?;
    SignedStatement::read(alloc, text.as_slice()).ok()?
}
