// The federation, and what its entities publish.

ghost use Rattle.std.specs.Prelude.{◌≡◌, ◌++◌, ◌∷◌, [], codes, IfOk, OnOk};
ghost use Rattle.entity_id.specs.Urls.{fetch_url_of};
ghost use Rattle.authority_core.specs.Endpoints.{endpoint};
ghost use Rattle.rehearsal.specs.Configurations.{IsConfigured};
ghost use Rattle.rehearsal.specs.Federations.{AddsFederation, AddsLeaf, AddsSuperior, IsMadeBy, own_page, page_about, pages_of};
ghost use Rattle.rehearsal.specs.Keys.{set_text};

use crate::clock::MOMENT;
use crate::configurations::{Role, configuration};
use crate::keys::{ring_of, set_text};
use authority_core::Registry;
use entity_id::{EntityId, fetch_url, without_slash};
use fed_base::{Duplicate, Memory, Seq, Text};
use fed_json::{Json, read_tree};
use fed_net::NamedPage;
use fed_ports::Page;
use key_ring::KeyRing;
use std::alloc::Global;

/// An entity as the one above it knows it.
#[derive(Drop)]
pub(crate) struct Entity {
    pub(crate) id: EntityId,
    /// Its keys, a key set as JSON.
    pub(crate) keys: Text,
}

// A node that was made, and its keys, a key set as JSON.
#[derive(Drop)]
struct Made {
    registry: Registry,
    keys: Text,
}

/// Makes the federation, where the leaf's metadata has so many parameters, from the leaf up, and adds the pages that its entities publish.
/// It answers the trust anchor.
pub(crate) fn add_federation(
    alloc: Global,
    params: u64,
    pages: &mut Seq<NamedPage>,
) -> Result<Entity, Memory>
    ensures { IfOk result (AddsFederation params pages.old pages.new) }
{
    let leaf = add_leaf(alloc, params, pages)?;
    let lower = add_superior(alloc, Role::Lower, params, leaf, pages)?;
    let upper = add_superior(alloc, Role::Upper, params, lower, pages)?;
    add_superior(alloc, Role::Anchor, params, upper, pages)
}

// Makes the leaf, and adds its page.
fn add_leaf(alloc: Global, params: u64, pages: &mut Seq<NamedPage>) -> Result<Entity, Memory>
    ensures { IfOk result (AddsLeaf params pages.old pages.new) }
{
    let made = make(alloc, Role::Leaf, b"", params)?;
    let entity = publish_own(alloc, &made, pages);
    drop(made);
    entity
}

// Makes a superior of an entity, and adds its pages.
fn add_superior(
    alloc: Global,
    role: Role,
    params: u64,
    below: Entity,
    pages: &mut Seq<NamedPage>,
) -> Result<Entity, Memory>
    ensures { IfOk result (AddsSuperior role params below pages.old pages.new) }
{
    let Ok(made) = make(alloc, role, below.keys.as_slice(), params) else {
        drop(below);
        return Err(Memory);
    };
    let entity = publish(alloc, &made, &below.id, pages);
    drop(made);
    drop(below);
    entity
}

// Makes the node of a configuration above these keys.
fn make(alloc: Global, role: Role, keys: &[u8], params: u64) -> Result<Made, Memory>
    ensures { IfOk result (IsMadeBy role keys.now params) }
{
    let config = configuration(alloc, role, keys, params)?;
    let ring = ring_of(alloc, role.key())?;
    make_by(alloc, config.as_slice(), ring)
}

// Makes the node of a configuration and a ring.
fn make_by(alloc: Global, config: &[u8], ring: KeyRing) -> Result<Made, Memory>
    ensures { IfOk result (λ made. IsConfigured config.now ring made.registry × (made.keys ≡ set_text ring)) }
{
    let Ok(keys) = set_text(alloc, &ring) else {
        drop(ring);
        return Err(Memory);
    };
    match registry_of(alloc, config, ring) {
        Ok(registry) => Ok(Made { registry, keys }),
        Err(memory) => {
            drop(keys);
            Err(memory)
        }
    }
}

/// The node of a configuration and a ring.
pub(crate) fn registry_of(alloc: Global, config: &[u8], ring: KeyRing) -> Result<Registry, Memory>
    ensures { IfOk result (IsConfigured config.now ring) }
{
    let Ok(tree) = read_tree(alloc, config) else {
        drop(ring);
        return Err(Memory);
    };
    let registry = Registry::read(alloc, &tree, ring);
    drop(tree);
    match registry {
        Ok(registry) => Ok(registry),
        Err(_) => Err(Memory),
    }
}

// Adds the page of a leaf, and answers it.
fn publish_own(alloc: Global, made: &Made, pages: &mut Seq<NamedPage>) -> Result<Entity, Memory>
    ensures known { IfOk result (λ entity. (entity.id ≡ made.now.registry.settings.id) × (entity.keys ≡ made.now.keys)) }
    ensures pages { IfOk result (λ _. pages.new ≡ pages.old ++ own_page made.now.registry ∷ []) }
{
    add_configuration(alloc, &made.registry, pages)?;
    entity_of(alloc, made)
}

// Adds the pages of a superior, and answers it.
fn publish(
    alloc: Global,
    made: &Made,
    sub: &EntityId,
    pages: &mut Seq<NamedPage>,
) -> Result<Entity, Memory>
    ensures known { IfOk result (λ entity. (entity.id ≡ made.now.registry.settings.id) × (entity.keys ≡ made.now.keys)) }
    ensures pages { IfOk result (λ _. pages.new ≡ pages.old ++ pages_of made.now.registry sub.now) }
{
    add_configuration(alloc, &made.registry, pages)?;
    add_statement(alloc, &made.registry, sub, pages)?;
    entity_of(alloc, made)
}

// The node as the one above it knows it.
fn entity_of(alloc: Global, made: &Made) -> Result<Entity, Memory>
    ensures { IfOk result (λ entity. (entity.id ≡ made.now.registry.settings.id) × (entity.keys ≡ made.now.keys)) }
{
    let id = made.registry.id().copy(alloc)?;
    let keys = made.keys.copy(alloc)?;
    Ok(Entity { id, keys })
}

// Adds the node's configuration.
fn add_configuration(
    alloc: Global,
    registry: &Registry,
    pages: &mut Seq<NamedPage>,
) -> Result<(), Memory>
    ensures { OnOk result (pages.new ≡ pages.old ++ own_page registry.now ∷ []) }
{
    let url = registry.id().well_known(alloc)?;
    let response = registry.configuration(alloc, MOMENT)?;
    let page = Page::Document(response.body);
    pages.push(NamedPage { url, page })
}

// Adds the node's statement about an entity.
fn add_statement(
    alloc: Global,
    registry: &Registry,
    sub: &EntityId,
    pages: &mut Seq<NamedPage>,
) -> Result<(), Memory>
    ensures { OnOk result (pages.new ≡ pages.old ++ page_about registry.now sub.now ∷ []) }
{
    let url = statement_url(alloc, registry.id(), sub)?;
    let sub = Text::of(alloc, sub.text())?;
    let response = registry.fetch(alloc, MOMENT, &sub)?;
    let page = Page::Document(response.body);
    pages.push(NamedPage { url, page })
}

// Where a superior is asked for its statement about an entity.
fn statement_url(alloc: Global, id: &EntityId, sub: &EntityId) -> Result<Text, Memory>
    ensures { IfOk result (λ url. url ≡ fetch_url_of (endpoint id.now (codes "/fetch")) sub.now) }
{
    let mut endpoint = Text::of(alloc, without_slash(id.text()))?;
    endpoint.append(b"/fetch")?;
    fetch_url(alloc, &endpoint, sub)
}
