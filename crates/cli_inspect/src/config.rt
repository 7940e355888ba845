// The node of a configuration file.

ghost use Rattle.std.specs.Prelude.{◌≡◌, ◌≤◌, ◌<◌, ◌++◌, List, ℕ, Option, IfOk, IfSome, MatchResult, codes, map};
ghost use Rattle.fed_base.specs.Moments.{moment_limit};
ghost use Rattle.cli_commands.specs.Answers.{StopsAs};
ghost use Rattle.cli_rings.specs.RingFiles.{IsFileOf};
ghost use Rattle.cli_rings.specs.Replies.{refused};
ghost use Rattle.fed_json.specs.Forms.{IsWellFormed};
ghost use Rattle.node_config.specs.Configurations.{configuration_in};
ghost use Rattle.node_config.specs.Told.{told};
ghost use Rattle.authority_core.specs.Configurations.{node_in};
ghost use Rattle.key_ring.specs.Rings.{Ring};
ghost use Rattle.key_ring.specs.Terms.{term_of};
ghost use Rattle.config_summary.specs.Marks.{first_fault};
ghost use Rattle.cli_inspect.specs.Configs.{IsConfigReply, IsRingReply, IsSettingsReply, found_reply, marks_reply, node_reply, shown_reply, text_of_file, warned_status};

use crate::checking::Checking;
use crate::replies::refused;
use crate::rings::{RingFound, ring_found};
use authority_core::Registry;
use cli_commands::{Stop, load_file};
use cli_rings::{File, Reply, explain_no_ring, plain};
use config_faults::{explain_config, explain_length};
use config_notes::say_warnings;
use config_summary::{first_fault, summary};
use config_warnings::{ConfigText, Warning, is_warned, warnings};
use fed_json::{TreeFault, read_tree};
use fed_ports::{Memory, Store, Text};
use file_notes::{explain_absent_file, explain_long_file};
use json_faults::explain_no_json;
use key_ring::{KeyRing, KeyTerm};
use node_config::{ConfigFault, NodeConfig};
use plain_notes::{Notes, Sentence};
use std::alloc::Global;

/// The reply that tells the node of the configuration file of that name, or its first fault.
pub(crate) fn check_config<D: Store>(
    alloc: Global,
    name: &Text,
    checking: Checking,
    store: &mut D,
    notes: &mut Notes,
) -> Result<Reply, Stop>
    requires { checking.moment < moment_limit }
    ensures files { D.files store.new ≡ D.files store.old }
    ensures steady { (source : ℕ) → MatchResult result (λ reply. D.store_faults store.new ≡ D.store_faults store.old)
        (λ stop. StopsAs stop source source (D.store_faults store.old) (D.store_faults store.new)) }
    ensures reply { IfOk result (IsConfigReply (D.files store.old) name.now checking) }
    ensures small { IfOk result (λ reply. reply.status ≤ 2) }
{
    let file = load_file(alloc, name, store, notes)?;
    match config_text(alloc, name, file, notes)? {
        Some(source) => {
            let reply = settings_reply(alloc, name, &source, checking, store, notes);
            drop(source);
            reply
        }
        None => Ok(plain(alloc, 2, b"input\n")?),
    }
}

// The text and the tree of the configuration's file, or `None` where it is none.
fn config_text(
    alloc: Global,
    name: &Text,
    file: File,
    notes: &mut Notes,
) -> Result<Option<ConfigText>, Memory>
    ensures text { (bytes : Option (List ℕ)) → IsFileOf file bytes → IfOk result (λ source. source ≡ text_of_file bytes) }
    ensures well_formed { IfOk result (λ source. IfSome source (λ source. IsWellFormed source.tree)) }
{
    match file {
        File::Absent => {
            explain_absent_file(alloc, name, notes);
            Ok(None)
        }
        File::TooLong => {
            explain_long_file(alloc, name, notes);
            Ok(None)
        }
        File::Whole(text) => match read_tree(alloc, text.as_slice()) {
            Ok(tree) => Ok(Some(ConfigText { text, tree })),
            Err(TreeFault::Syntax) => {
                let about = Sentence::of(alloc, name.as_slice());
                explain_no_json(alloc, about, text.as_slice(), notes);
                Ok(None)
            }
            Err(TreeFault::Memory) => Err(Memory),
        },
    }
}

// What is told of a configuration, by its members.
fn settings_reply<D: Store>(
    alloc: Global,
    name: &Text,
    source: &ConfigText,
    checking: Checking,
    store: &mut D,
    notes: &mut Notes,
) -> Result<Reply, Stop>
    requires formed { IsWellFormed source.now.tree }
    requires small { checking.moment < moment_limit }
    ensures files { D.files store.new ≡ D.files store.old }
    ensures steady { (source : ℕ) → MatchResult result (λ reply. D.store_faults store.new ≡ D.store_faults store.old)
        (λ stop. StopsAs stop source source (D.store_faults store.old) (D.store_faults store.new)) }
    ensures reply { IfOk result (IsSettingsReply (D.files store.old) checking source.now (configuration_in source.now.tree)) }
    ensures small { IfOk result (λ reply. reply.status ≤ 2) }
{
    match NodeConfig::read(alloc, &source.tree) {
        Ok(config) => {
            let reply = ring_reply(alloc, name, source, &config, checking, store, notes);
            drop(config);
            reply
        }
        Err(ConfigFault::Shape(member)) => {
            explain_config(alloc, name, &source.tree, notes);
            Ok(refused_member(alloc, &member, b" Shape")?)
        }
        Err(ConfigFault::Memory) => Err(Stop::Memory),
    }
}

// The refusal of a member.
fn refused_member(alloc: Global, member: &Text, fault: &[u8]) -> Result<Reply, Memory>
    ensures reply { IfOk result (λ reply. reply ≡ refused (member.now ++ fault.now)) }
    ensures small { IfOk result (λ reply. reply.status ≤ 2) }
{
    let mut words = Text::of(alloc, member.as_slice())?;
    words.append(fault)?;
    refused(alloc, words.as_slice())
}

// What is told of a configuration, by the file of the ring that it names.
fn ring_reply<D: Store>(
    alloc: Global,
    name: &Text,
    source: &ConfigText,
    config: &NodeConfig,
    checking: Checking,
    store: &mut D,
    notes: &mut Notes,
) -> Result<Reply, Stop>
    requires formed { IsWellFormed source.now.tree }
    requires small { checking.moment < moment_limit }
    ensures files { D.files store.new ≡ D.files store.old }
    ensures steady { (source : ℕ) → MatchResult result (λ reply. D.store_faults store.new ≡ D.store_faults store.old)
        (λ stop. StopsAs stop source source (D.store_faults store.old) (D.store_faults store.new)) }
    ensures reply { IfOk result (IsRingReply (D.files store.old) checking source.now (told config.now)) }
    ensures small { IfOk result (λ reply. reply.status ≤ 2) }
{
    let file = load_file(alloc, &config.ring, store, notes)?;
    let ring = ring_found(alloc, &file)?;
    explain_ring(alloc, config, &file, &ring, notes);
    Ok(found_reply(alloc, name, source, config, ring, checking, notes)?)
}

// Says why there is no ring.
fn explain_ring(
    alloc: Global,
    config: &NodeConfig,
    file: &File,
    ring: &RingFound,
    notes: &mut Notes,
) {
    match ring {
        RingFound::Opened(_) => {},
        _ => explain_no_ring(alloc, &config.ring, file, notes),
    }
}

fn found_reply(
    alloc: Global,
    name: &Text,
    source: &ConfigText,
    config: &NodeConfig,
    ring: RingFound,
    checking: Checking,
    notes: &mut Notes,
) -> Result<Reply, Memory>
    requires formed { IsWellFormed source.now.tree }
    requires small { checking.moment < moment_limit }
    ensures reply { IfOk result (λ reply. reply ≡ found_reply checking source.now (told config.now) ring) }
    ensures small { IfOk result (λ reply. reply.status ≤ 2) }
{
    match ring {
        RingFound::Absent => refused(alloc, b"ring Absent"),
        RingFound::TooLong => refused(alloc, b"ring TooLong"),
        RingFound::Shape => refused(alloc, b"ring Shape"),
        RingFound::Known => refused(alloc, b"ring Known"),
        RingFound::Opened(ring) => node_reply(alloc, name, source, config, ring, checking, notes),
    }
}

// What is told of a configuration and its ring.
fn node_reply(
    alloc: Global,
    name: &Text,
    source: &ConfigText,
    config: &NodeConfig,
    ring: KeyRing,
    checking: Checking,
    notes: &mut Notes,
) -> Result<Reply, Memory>
    requires formed { IsWellFormed source.now.tree }
    requires small { checking.moment < moment_limit }
    ensures reply { IfOk result (λ reply. reply ≡ node_reply checking source.now (told config.now) ring (node_in source.now.tree ring)) }
    ensures small { IfOk result (λ reply. reply.status ≤ 2) }
{
    let keys = ring.terms(alloc)?;
    match Registry::read(alloc, &source.tree, ring) {
        Ok(registry) => {
            drop(registry);
            marks_reply(
                alloc,
                name,
                source,
                config,
                keys.as_slice(),
                checking,
                notes,
            )
        }
        Err(ConfigFault::Shape(member)) => {
            explain_length(alloc, name, &source.tree, &member, notes);
            refused_member(alloc, &member, b" TooLong")
        }
        Err(ConfigFault::Memory) => Err(Memory),
    }
}

// The node, unless one of its trust marks is none of its own.
fn marks_reply(
    alloc: Global,
    name: &Text,
    source: &ConfigText,
    config: &NodeConfig,
    keys: &[KeyTerm],
    checking: Checking,
    notes: &mut Notes,
) -> Result<Reply, Memory>
    requires formed { IsWellFormed source.now.tree }
    requires small { checking.moment < moment_limit }
    ensures reply { (ring : Ring) → keys.now ≡ map term_of ring
        → IfOk result (λ reply. reply ≡ marks_reply checking source.now (told config.now) ring (first_fault config.now.id config.now.claims.marks)) }
    ensures small { IfOk result (λ reply. reply.status ≤ 2) }
{
    match first_fault(alloc, &config.id, &config.claims.marks)? {
        Some(fault) => {
            explain_mark(alloc, name, &fault, notes);
            refused(alloc, fault.as_slice())
        }
        None => shown_reply(alloc, name, source, config, keys, checking, notes),
    }
}

// The node, with what is warned of it in the notes.
fn shown_reply(
    alloc: Global,
    name: &Text,
    source: &ConfigText,
    config: &NodeConfig,
    keys: &[KeyTerm],
    checking: Checking,
    notes: &mut Notes,
) -> Result<Reply, Memory>
    requires formed { IsWellFormed source.now.tree }
    requires small { checking.moment < moment_limit }
    ensures reply { IfOk result (λ reply. reply ≡ shown_reply checking source.now (told config.now) keys.now) }
    ensures small { IfOk result (λ reply. reply.status ≤ 2) }
{
    let warned = warnings(alloc, checking.moment, source, config, keys)?;
    say_warnings(alloc, name, warned.as_slice(), notes);
    let status = warned_status(checking.strict, warned.as_slice());
    drop(warned);
    Ok(Reply {
        status,
        text: summary(alloc, checking.moment, config, keys)?,
        kept: None,
    })
}

// 1 where what is warned of is refused.
fn warned_status(strict: bool, warned: &[Warning]) -> u8
    ensures status { result ≡ warned_status strict warned.now }
    ensures small { result ≤ 1 }
{
    if strict && is_warned(warned) { 1 } else { 0 }
}

// Says which trust mark is none of the node's.
fn explain_mark(alloc: Global, name: &Text, fault: &Text, notes: &mut Notes) {
    let why: &[u8] = if fault.as_slice().ends_with(b"Form") {
        b": the text at this place isn't a trust mark"
    } else {
        b": the trust mark at this place is of another type, or about another entity"
    };
    notes.say(
        Sentence::of(alloc, name.as_slice())
            .and(b": ")
            .and(fault.as_slice())
            .and(why),
    );
}
