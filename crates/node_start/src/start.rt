// What starts.

ghost use Rattle.fed_json.specs.Forms.{IsWellFormed};

use config_notes::say_warnings;
use config_warnings::{ConfigText, warnings};
use fed_base::{Seq, Text};
use fed_json::read_tree;
use fed_ports::{Address, Store};
use key_ring::{KeyRing, KeyState, KeyTerm};
use node_config::NodeConfig;
use plain_notes::{Notes, Sentence};
use std::alloc::Global;

/// What is to be started.
#[derive(Drop)]
pub struct Start<'a> {
    /// The name of the configuration file.
    pub config: &'a Text,
    /// Where it is to listen.
    pub address: Address,
    /// In seconds since 1970.
    pub moment: u64,
}

/// Says what is warned of the node of the configuration file, and then who starts where, what it knows, and by which key it signs until
/// when, and gives the node's identifier. Where the file or the ring that it names isn't of its form nothing is said.
pub fn tell_of_start<D: Store>(
    alloc: Global,
    start: &Start,
    store: &mut D,
    notes: &mut Notes,
) -> Option<Text> {
    let Ok(Some(text)) = store.load(alloc, start.config) else {
        return None;
    };
    match read_tree(alloc, text.as_slice()) {
        Ok(tree) => {
            let source = ConfigText { text, tree };
            let node = tell_of_node(alloc, start, &source, store, notes);
            drop(source);
            node
        }
        Err(_) => None,
    }
}

fn tell_of_node<D: Store>(
    alloc: Global,
    start: &Start,
    source: &ConfigText,
    store: &mut D,
    notes: &mut Notes,
) -> Option<Text>
    requires { IsWellFormed source.now.tree }
{
    let Ok(config) = NodeConfig::read(alloc, &source.tree) else {
        return None;
    };
    let node = match keys_of(alloc, &config.ring, store) {
        Some(keys) => {
            warn_of_node(alloc, start, source, &config, keys.as_slice(), notes);
            notes.say(started(alloc, start, &config, keys.as_slice()));
            drop(keys);
            Text::of(alloc, config.id.text()).ok()
        }
        None => None,
    };
    drop(config);
    node
}

// The keys of the ring's file of that name.
fn keys_of<D: Store>(alloc: Global, name: &Text, store: &mut D) -> Option<Seq<KeyTerm>> {
    let Ok(Some(bytes)) = store.load(alloc, name) else {
        return None;
    };
    match KeyRing::open(alloc, bytes.as_slice()) {
        Ok(ring) => {
            let keys = ring.terms(alloc).ok();
            drop(ring);
            keys
        }
        Err(_) => None,
    }
}

fn warn_of_node(
    alloc: Global,
    start: &Start,
    source: &ConfigText,
    config: &NodeConfig,
    keys: &[KeyTerm],
    notes: &mut Notes,
)
    requires { IsWellFormed source.now.tree }
{
    if let Ok(warned) = warnings(alloc, start.moment, source, config, keys) {
        say_warnings(alloc, start.config, warned.as_slice(), notes);
        drop(warned);
    }
}

fn started(alloc: Global, start: &Start, config: &NodeConfig, keys: &[KeyTerm]) -> Sentence {
    let begun = Sentence::of(alloc, config.id.text()).and(b" starts on ");
    let placed = and_address(alloc, begun, &start.address);
    let subordinates = config.subordinates.len() as u64;
    let below = and_count(alloc, placed.and(b", "), subordinates, b" subordinate");
    let known = match &config.resolver {
        Some(resolver) => and_count(
            alloc,
            below.and(b", "),
            resolver.anchors.len() as u64,
            b" trust anchor",
        ),
        None => below,
    };
    and_signer(alloc, known, keys)
}

fn and_address(alloc: Global, begun: Sentence, address: &Address) -> Sentence {
    let [a, b, c, d] = address.ip;
    begun
        .and_number(alloc, u64::from(a))
        .and(b".")
        .and_number(alloc, u64::from(b))
        .and(b".")
        .and_number(alloc, u64::from(c))
        .and(b".")
        .and_number(alloc, u64::from(d))
        .and(b":")
        .and_number(alloc, u64::from(address.port))
}

// So many of these.
fn and_count(alloc: Global, begun: Sentence, count: u64, what: &[u8]) -> Sentence {
    let said = begun.and_number(alloc, count).and(what);
    if count == 1 { said } else { said.and(b"s") }
}

// The first live key, and its end.
fn and_signer(alloc: Global, begun: Sentence, keys: &[KeyTerm]) -> Sentence {
    match keys.iter().find(|key| matches!(key.state, KeyState::Live)) {
        Some(signer) => begun
            .and(b", signs by ")
            .and(signer.kid.as_slice())
            .and(b" until ")
            .and_moment(alloc, signer.exp),
        None => begun,
    }
}
