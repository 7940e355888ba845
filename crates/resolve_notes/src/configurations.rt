// The configurations that a round got.

use crate::reading::read_of;
use chain_notes::difference_of;
use entity_id::{EntityId, fetch_url};
use entity_statement::{SignedStatement, Statement};
use fed_base::{Duplicate, Memory, Seq, Text};
use plain_notes::Sentence;
use resolve_round::{Ask, Search};
use std::alloc::Global;

/// What an entity's own configuration says of the way up: where it is asked for statements, and who its superiors are.
#[derive(Drop)]
pub(crate) struct Known {
    pub(crate) entity: EntityId,
    pub(crate) endpoint: Option<Text>,
    pub(crate) hints: Seq<EntityId>,
}

/// The configurations that were got where they belong, up to the first for which memory is wanting.
pub(crate) fn configurations_of(alloc: Global, search: &Search) -> Seq<Known> {
    let mut configurations = Seq::new(alloc);
    for ask in search.asks.as_slice() {
        if !add_known(alloc, ask, &mut configurations) {
            break;
        }
    }
    configurations
}

// Adds what was got there, where it is a configuration, and answers whether memory sufficed.
fn add_known(alloc: Global, ask: &Ask, configurations: &mut Seq<Known>) -> bool {
    let Some(signed) = read_of(alloc, ask) else {
        return true;
    };
    let added = add_signed(alloc, ask, &signed, configurations);
    drop(signed);
    added
}

fn add_signed(
    alloc: Global,
    ask: &Ask,
    signed: &SignedStatement,
    configurations: &mut Seq<Known>,
) -> bool {
    let statement = &signed.statement;
    if statement.iss != statement.sub || !is_at(alloc, &statement.iss, ask.url.as_slice()) {
        return true;
    }
    match known_of(alloc, statement) {
        Ok(known) => configurations.push(known).is_ok(),
        Err(_) => false,
    }
}

fn known_of(alloc: Global, statement: &Statement) -> Result<Known, Memory> {
    let endpoint = match statement.fetch_endpoint() {
        Some(endpoint) => Some(endpoint.copy(alloc)?),
        None => None,
    };
    let entity = statement.iss.copy(alloc)?;
    let hints = statement.hints.copy(alloc)?;
    Ok(Known {
        entity,
        endpoint,
        hints,
    })
}

// Whether the entity's configuration is asked for at the URL.
fn is_at(alloc: Global, entity: &EntityId, url: &[u8]) -> bool {
    match entity.well_known(alloc) {
        Ok(own) => own.as_slice() == url,
        Err(_) => false,
    }
}

/// Whose configuration was wanted at a URL: the leaf's, or that of a superior that an entity hints.
#[derive(Clone, Copy, Drop)]
pub(crate) struct Wanted<'a> {
    pub(crate) entity: &'a EntityId,
    // Who hints it, where it isn't the leaf.
    by: Option<&'a EntityId>,
}

impl<'a> Wanted<'a> {
    /// Goes on with whose configuration was wanted, where that of another is there.
    pub(crate) fn after(&self, about: Sentence, there: &EntityId) -> Sentence {
        let sentence = match self.by {
            Some(by) => about.and(b"the hint of ").and(by.text()).and(b" is "),
            None => about.and(b"asked was "),
        };
        sentence
            .and(self.entity.text())
            .and(difference_of(self.entity, there))
    }
}

/// Whose configuration was wanted at the URL: this entity's, where it was wanted there, and else another's that was.
pub(crate) fn wanted_at<'a>(
    alloc: Global,
    leaf: &'a EntityId,
    configurations: &'a [Known],
    url: &[u8],
    there: &EntityId,
) -> Option<Wanted<'a>> {
    let mut found = None;
    if is_at(alloc, leaf, url) {
        found = Some(Wanted {
            entity: leaf,
            by: None,
        });
    }
    for known in configurations {
        found = better_of(found, hinted_at(alloc, known, url, there), there);
    }
    found
}

// Of two that were wanted the one that is there, and else the first.
fn better_of<'a>(
    one: Option<Wanted<'a>>,
    other: Option<Wanted<'a>>,
    there: &EntityId,
) -> Option<Wanted<'a>> {
    match (one, other) {
        (Some(one), Some(other)) => if one.entity != there && other.entity == there {
            Some(other)
        } else {
            Some(one)
        },
        (Some(one), None) => Some(one),
        (None, other) => other,
    }
}

// The hint of the configuration whose own is asked for at the URL: of several the one that is there.
fn hinted_at<'a>(
    alloc: Global,
    known: &'a Known,
    url: &[u8],
    there: &EntityId,
) -> Option<Wanted<'a>> {
    let mut found = None;
    for hint in known.hints.as_slice() {
        if is_at(alloc, hint, url) {
            let hinted = Wanted {
                entity: hint,
                by: Some(&known.entity),
            };
            found = better_of(found, Some(hinted), there);
        }
    }
    found
}

/// Who is asked at the URL for a statement, and about whom.
#[derive(Clone, Copy, Drop)]
pub(crate) struct Fetch<'a> {
    pub(crate) superior: &'a EntityId,
    pub(crate) subject: &'a EntityId,
}

/// The superior and the subject of the statement that is asked for at the URL, where one is.
pub(crate) fn fetch_at<'a>(
    alloc: Global,
    configurations: &'a [Known],
    url: &[u8],
) -> Option<Fetch<'a>> {
    for known in configurations {
        if let Some(endpoint) = &known.endpoint {
            if url.starts_with(endpoint.as_slice()) {
                let subject = subject_at(alloc, endpoint, configurations, url);
                if let Some(subject) = subject {
                    return Some(Fetch {
                        superior: &known.entity,
                        subject,
                    });
                }
            }
        }
    }
    None
}

// The entity about which the endpoint is asked at the URL.
fn subject_at<'a>(
    alloc: Global,
    endpoint: &Text,
    configurations: &'a [Known],
    url: &[u8],
) -> Option<&'a EntityId> {
    for known in configurations {
        if let Ok(asked) = fetch_url(alloc, endpoint, &known.entity) {
            if asked.as_slice() == url {
                return Some(&known.entity);
            }
        }
    }
    None
}

/// Two entities of which each hints the other, where there are such.
pub(crate) fn circle_in(configurations: &[Known]) -> Option<Fetch<'_>> {
    for known in configurations {
        let other = configurations.iter().find(|other| hints(known, &other.entity)
            && hints(other, &known.entity));
        if let Some(other) = other {
            return Some(Fetch {
                superior: &other.entity,
                subject: &known.entity,
            });
        }
    }
    None
}

// Whether the configuration has the entity among its hints.
fn hints(known: &Known, entity: &EntityId) -> bool {
    known.hints.as_slice().iter().any(|hint| hint == entity)
}
