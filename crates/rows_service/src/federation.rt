// A federation: a trust anchor with one subordinate, and a resolver. What they publish.

use authority_core::Registry;
use fed_base::{Memory, Seq, Text};
use fed_json::read_tree;
use fed_net::NamedPage;
use fed_ports::Page;
use key_ring::KeyRing;
use std::alloc::Global;

/// The moment at which all is issued and asked for, in seconds since 1970.
pub(crate) const MOMENT: u64 = 1_800_000_000;

// The ring of the trust anchor, whose seeds are the bytes 0 to 47, and its configuration.
const ANCHOR_RING: &[u8] =
    b"{\"keys\":[{\"exp\":1900000000,\"iat\":1800000000,\"seeds\":\"000102030405060708090a0b0c0d0e0f101112131415161718191a1b1c1d1e1f202122232425262728292a2b2c2d2e2f\",\"state\":\"live\"}],\"version\":1}";

const ANCHOR: &[u8] =
    b"{\"entity_id\":\"https://ta.example\",\"ring\":\"ta\",\"lifetime\":86400,\"subordinates\":[{\"entity_id\":\"https://rp.example\",\"jwks\":{\"keys\":[{\"alg\":\"SLH-DSA-SHA2-128s\",\"kid\":\"iif1sWF2bp-0ANJO3YzpiDHWLvDf9tqJJ_bu1trBODg\",\"kty\":\"AKP\",\"pub\":\"gIGCg4SFhoeIiYqLjI2Oj9jBECynG2yIJA4SuuZ7Glc\"}]}}]}";

// The ring of the subordinate, whose seeds are the bytes 96 to 143, and its configuration.
const LEAF_RING: &[u8] =
    b"{\"keys\":[{\"exp\":1900000000,\"iat\":1800000000,\"seeds\":\"606162636465666768696a6b6c6d6e6f707172737475767778797a7b7c7d7e7f808182838485868788898a8b8c8d8e8f\",\"state\":\"live\"}],\"version\":1}";

const LEAF: &[u8] =
    b"{\"entity_id\":\"https://rp.example\",\"ring\":\"rp\",\"lifetime\":86400,\"authority_hints\":[\"https://ta.example\"],\"metadata\":{\"openid_relying_party\":{\"application_type\":\"web\"}}}";

/// The ring of the resolver, whose seeds are the bytes 192 to 239.
pub(crate) const RESOLVER_RING: &[u8] =
    b"{\"keys\":[{\"exp\":1900000000,\"iat\":1800000000,\"seeds\":\"c0c1c2c3c4c5c6c7c8c9cacbcccdcecfd0d1d2d3d4d5d6d7d8d9dadbdcdddedfe0e1e2e3e4e5e6e7e8e9eaebecedeeef\",\"state\":\"live\"}],\"version\":1}";

/// The configuration of the resolver. It has two workers, and a subordinate that it lists.
pub(crate) const RESOLVER: &[u8] =
    b"{\"entity_id\":\"https://resolver.example\",\"ring\":\"ring\",\"lifetime\":86400,\"subordinates\":[{\"entity_id\":\"https://rp.example\",\"jwks\":{\"keys\":[{\"alg\":\"SLH-DSA-SHA2-128s\",\"kid\":\"iif1sWF2bp-0ANJO3YzpiDHWLvDf9tqJJ_bu1trBODg\",\"kty\":\"AKP\",\"pub\":\"gIGCg4SFhoeIiYqLjI2Oj9jBECynG2yIJA4SuuZ7Glc\"}]}}],\"resolver\":{\"anchors\":[{\"entity_id\":\"https://ta.example\",\"jwks\":{\"keys\":[{\"alg\":\"SLH-DSA-SHA2-128s\",\"kid\":\"GvnrvpnonJaEuzIqndKE_vyxxLqvy2IkYUXouYZQjAg\",\"kty\":\"AKP\",\"pub\":\"ICEiIyQlJicoKSorLC0uL5kM5imHkrEohGqOSjpolUw\"}]}}],\"age\":600,\"workers\":2,\"control\":{\"keys\":[]},\"routes\":[]}}";

// Where the trust anchor is asked for its statement about the subordinate.
const STATEMENT: &[u8] = b"https://ta.example/fetch?sub=https%3A%2F%2Frp.example";

// Where there is no configuration. The bytes are those of the trust anchor's URL in another order, so that the cache has both in one part.
const ABSENT: &[u8] = b"https://at.example/.well-known/openid-federation";

/// The node of a configuration and a ring.
pub(crate) fn registry_of(alloc: Global, config: &[u8], ring: &[u8]) -> Result<Registry, Memory> {
    let Ok(ring) = KeyRing::open(alloc, ring) else {
        return Err(Memory);
    };
    let Ok(tree) = read_tree(alloc, config) else {
        drop(ring);
        return Err(Memory);
    };
    let registry = Registry::read(alloc, &tree, ring);
    drop(tree);
    match registry {
        Ok(registry) => Ok(registry),
        Err(_) => Err(Memory),
    }
}

// Adds the node's configuration.
fn add_configuration(
    alloc: Global,
    registry: &Registry,
    pages: &mut Seq<NamedPage>,
) -> Result<(), Memory> {
    let url = registry.id().well_known(alloc)?;
    let response = registry.configuration(alloc, MOMENT)?;
    let page = Page::Document(response.body);
    pages.push(NamedPage { url, page })
}

// Adds the trust anchor's statement about the subordinate.
fn add_statement(
    alloc: Global,
    registry: &Registry,
    pages: &mut Seq<NamedPage>,
) -> Result<(), Memory> {
    let url = Text::of(alloc, STATEMENT)?;
    let sub = Text::of(alloc, b"https://rp.example")?;
    let response = registry.fetch(alloc, MOMENT, &sub)?;
    let page = Page::Document(response.body);
    pages.push(NamedPage { url, page })
}

fn add_published(
    alloc: Global,
    registry: &Registry,
    pages: &mut Seq<NamedPage>,
) -> Result<(), Memory> {
    add_configuration(alloc, registry, pages)?;
    add_statement(alloc, registry, pages)
}

// Adds what the trust anchor publishes.
fn add_anchor(alloc: Global, pages: &mut Seq<NamedPage>) -> Result<(), Memory> {
    let registry = registry_of(alloc, ANCHOR, ANCHOR_RING)?;
    let added = add_published(alloc, &registry, pages);
    drop(registry);
    added
}

// Adds what the subordinate publishes.
fn add_leaf(alloc: Global, pages: &mut Seq<NamedPage>) -> Result<(), Memory> {
    let registry = registry_of(alloc, LEAF, LEAF_RING)?;
    let added = add_configuration(alloc, &registry, pages);
    drop(registry);
    added
}

// Adds a page that is refused.
fn add_absent(alloc: Global, pages: &mut Seq<NamedPage>) -> Result<(), Memory> {
    let url = Text::of(alloc, ABSENT)?;
    pages.push(NamedPage {
        url,
        page: Page::Refusal(404),
    })
}

/// The pages that there are.
pub(crate) fn web(alloc: Global) -> Result<Seq<NamedPage>, Memory> {
    let mut pages = Seq::new(alloc);
    add_leaf(alloc, &mut pages)?;
    add_anchor(alloc, &mut pages)?;
    add_absent(alloc, &mut pages)?;
    Ok(pages)
}
