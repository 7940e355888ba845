// Webs of entities, and the pages that they give.

use crate::names::{entity, text_of};
use crate::words::cut;
use entity_id::EntityId;
use entity_statement::{Statement, StatementFault};
use fed_base::{Memory, Seq, Text};
use fed_json::{TreeFault, read_tree};
use std::alloc::Global;

/// What stands at the URL of an entity's configuration.
#[derive(Clone, Copy, Drop)]
pub(crate) enum Kind {
    Page,
    Useless,
    Fault,
}

/// An entity of a web.
#[derive(Drop)]
pub(crate) struct Entry {
    pub id: EntityId,
    pub url: Text,
    pub claims: Text,
    pub kind: Kind,
    // It names the endpoint of another entity.
    pub shares: bool,
}

/// What is got for a want.
#[derive(Drop)]
pub(crate) enum Page {
    Good(Statement),
    Useless,
    Fault,
}

fn add_hints(alloc: Global, out: &mut Text, hints: &str) -> Result<(), Memory> {
    out.append(b",\"authority_hints\":[")?;
    for (at, name) in hints.split(',').enumerate() {
        if at > 0 {
            out.push(b',')?;
        }
        out.push(b'"')?;
        out.append(text_of(alloc, name)?.as_slice())?;
        out.push(b'"')?;
    }
    out.push(b']')
}

fn add_endpoint(alloc: Global, out: &mut Text, name: &str) -> Result<(), Memory> {
    out.append(b",\"metadata\":{\"federation_entity\":{\"federation_fetch_endpoint\":\"")?;
    out.append(text_of(alloc, name)?.as_slice())?;
    out.append(b"/fetch\"}}")
}

// The claims that each statement has, without their last brace.
fn common(alloc: Global, iss: &[u8], sub: &[u8]) -> Result<Text, Memory> {
    let mut out = Text::of(
        alloc,
        b"{\"exp\":2,\"iat\":1,\"jwks\":{\"keys\":[]},\"iss\":\"",
    )?;
    out.append(iss)?;
    out.append(b"\",\"sub\":\"")?;
    out.append(sub)?;
    out.push(b'"')?;
    Ok(out)
}

// The claims of a configuration: its hints, and whose endpoint it names.
fn configuration(
    alloc: Global,
    id: &EntityId,
    hints: &str,
    endpoint: &str,
) -> Result<Text, Memory> {
    let mut out = common(alloc, id.text(), id.text())?;
    if hints != "-" {
        add_hints(alloc, &mut out, hints)?;
    }
    if endpoint != "-" {
        add_endpoint(alloc, &mut out, endpoint)?;
    }
    out.push(b'}')?;
    Ok(out)
}

fn kind_of(word: &str) -> Kind {
    match word {
        "page" => Kind::Page,
        "fault" => Kind::Fault,
        _ => Kind::Useless,
    }
}

fn entry_of(
    alloc: Global,
    id: EntityId,
    claims: Text,
    kind: Kind,
    shares: bool,
) -> Result<Entry, Memory> {
    let url = id.well_known(alloc)?;
    Ok(Entry {
        id,
        url,
        claims,
        kind,
        shares,
    })
}

// Adds an entity by its row: its kind, its name, its hints with commas between them, and whose endpoint it names, where that isn't its own.
fn add_entry(alloc: Global, web: &mut Seq<Entry>, given: &str) -> Result<(), Memory> {
    let (kind, given) = cut(given, ' ');
    let (name, given) = cut(given, ' ');
    let (hints, endpoint) = cut(given, ' ');
    let whose = if endpoint == "" { name } else { endpoint };
    match entity(alloc, name)? {
        Some(id) => {
            let claims = configuration(alloc, &id, hints, whose)?;
            web.push(entry_of(alloc, id, claims, kind_of(kind), endpoint != "")?)
        }
        None => Ok(()),
    }
}

/// The web of these entities, with a tab between them.
pub(crate) fn read_web(alloc: Global, given: &str) -> Result<Seq<Entry>, Memory> {
    let mut web = Seq::new(alloc);
    for part in given.split('\t') {
        add_entry(alloc, &mut web, part)?;
    }
    Ok(web)
}

fn statement(alloc: Global, claims: &[u8]) -> Result<Page, Memory> {
    match read_tree(alloc, claims) {
        Ok(tree) => match Statement::of_claims(alloc, tree) {
            Ok(statement) => Ok(Page::Good(statement)),
            Err(StatementFault::Memory) => Err(Memory),
            Err(_) => Ok(Page::Useless),
        },
        Err(TreeFault::Syntax) => Ok(Page::Useless),
        Err(TreeFault::Memory) => Err(Memory),
    }
}

// What is got from an entity whose configuration stands at the URL that was asked, for the configuration of this one.
fn own_page(alloc: Global, entry: &Entry, entity: &EntityId) -> Result<Page, Memory> {
    match entry.kind {
        Kind::Page => {
            if entry.id == *entity {
                statement(alloc, entry.claims.as_slice())
            } else {
                Ok(Page::Useless)
            }
        }
        Kind::Useless => Ok(Page::Useless),
        Kind::Fault => Ok(Page::Fault),
    }
}

/// What is got for the want of a configuration.
pub(crate) fn configuration_page(
    alloc: Global,
    web: &Seq<Entry>,
    entity: &EntityId,
    url: &Text,
) -> Result<Page, Memory> {
    for entry in web.as_slice() {
        if entry.url.as_slice() == url.as_slice() {
            return own_page(alloc, entry, entity);
        }
    }
    Ok(Page::Useless)
}

// The superior's statement about the subject.
fn superior_page(alloc: Global, superior: &EntityId, subject: &EntityId) -> Result<Page, Memory> {
    let mut claims = common(alloc, superior.text(), subject.text())?;
    claims.push(b'}')?;
    statement(alloc, claims.as_slice())
}

/// What is got for the want of a superior's statement. An endpoint has the statements of the entity that it belongs to.
pub(crate) fn statement_page(
    alloc: Global,
    web: &Seq<Entry>,
    superior: &EntityId,
    subject: &EntityId,
) -> Result<Page, Memory> {
    for entry in web.as_slice() {
        if entry.id == *superior && !entry.shares {
            return superior_page(alloc, superior, subject);
        }
    }
    Ok(Page::Useless)
}
