// The node of a configuration file and of the ring file that it names.

ghost use Rattle.std.specs.Prelude.{◌≡◌, IfOk, Ok, Some};
ghost use Rattle.fed_json.specs.Forms.{IsWellFormed};
ghost use Rattle.fed_json.specs.Reading.{tree_in};
ghost use Rattle.key_ring.specs.Files.{Opens};
ghost use Rattle.authority_core.specs.Configurations.{node_in};
ghost use Rattle.node_files.specs.NodeFiles.{Answers, Counts, IsAuthorityAlone, IsNodeFor, IsNodeOf, IsReadAs, IsResolver, IsRingFor, IsRingOf, fault_of};

use crate::fault::NodeFault;
use crate::notes::{explain_no_resolver, explain_resolver, explain_text};
use authority_core::Registry;
use config_faults::{explain_config, explain_length};
use fed_json::{Json, TreeFault, object_members, read_tree, text_at};
use fed_ports::{Memory, Store, StoreFault, Text};
use file_notes::{explain_absent_file, explain_long_file, explain_ring_file};
use key_ring::{KeyRing, RingFault};
use node_config::{ConfigFault, NodeConfig};
use plain_notes::{Notes, explain_unread_file};
use ring_faults::ring_fault;
use std::alloc::Global;

// The bytes of the file of that name.
fn read_file<D: Store>(
    alloc: Global,
    name: &Text,
    store: &mut D,
    notes: &mut Notes,
) -> Result<Text, NodeFault>
    ensures read { Answers (D.files store.old) (IsReadAs (D.files store.old) name.now) result }
    ensures files { D.files store.new ≡ D.files store.old }
    ensures counts { Counts (D.store_faults store.old) (D.store_faults store.new) result }
{
    match store.load(alloc, name) {
        Ok(Some(bytes)) => Ok(bytes),
        Ok(None) => {
            explain_absent_file(alloc, name, notes);
            Err(NodeFault::Input)
        }
        Err(StoreFault::TooLong) => {
            explain_long_file(alloc, name, notes);
            Err(NodeFault::Input)
        }
        Err(StoreFault::Failed) => {
            explain_unread_file(alloc, name, notes);
            Err(NodeFault::Store)
        }
        Err(StoreFault::Memory) => Err(NodeFault::Memory),
    }
}

// The tree of a configuration file, whose bytes are let go once it is read.
fn read_config(
    alloc: Global,
    name: &Text,
    bytes: Text,
    notes: &mut Notes,
) -> Result<Json, NodeFault>
    ensures tree { (files : _) → Answers files (λ tree. tree_in bytes ≡ Some tree) result }
    ensures well_formed { IfOk result IsWellFormed }
    ensures steady { (count : _) → Counts count count result }
{
    match read_tree(alloc, bytes.as_slice()) {
        Ok(tree) => Ok(tree),
        Err(TreeFault::Syntax) => {
            explain_text(alloc, name, bytes.as_slice(), notes);
            Err(NodeFault::Input)
        }
        Err(TreeFault::Memory) => Err(NodeFault::Memory),
    }
}

// The ring of a file's bytes.
fn read_ring(
    alloc: Global,
    name: &Text,
    bytes: Text,
    notes: &mut Notes,
) -> Result<KeyRing, NodeFault>
    ensures ring { (files : _) → Answers files (λ ring. Opens bytes (Ok ring)) result }
    ensures steady { (count : _) → Counts count count result }
{
    match KeyRing::open(alloc, bytes.as_slice()) {
        Ok(ring) => Ok(ring),
        Err(fault) => {
            explain_ring_fault(alloc, name, bytes.as_slice(), &fault, notes);
            Err(fault_of(&fault))
        }
    }
}

// Says what is amiss with a ring's file. Where memory was wanting nothing is: the end of the command says so.
fn explain_ring_fault(
    alloc: Global,
    name: &Text,
    bytes: &[u8],
    fault: &RingFault,
    notes: &mut Notes,
) {
    if matches!(fault, RingFault::Shape | RingFault::Known(_)) {
        explain_ring_file(alloc, name, &ring_fault(alloc, bytes), notes);
    }
}

fn fault_of(fault: &RingFault) -> NodeFault
    ensures { result ≡ fault_of fault.now }
{
    match fault {
        RingFault::Shape | RingFault::Known(_) => NodeFault::Input,
        _ => NodeFault::Memory,
    }
}

// The ring of the file of that name.
fn open_ring<D: Store>(
    alloc: Global,
    name: &Text,
    store: &mut D,
    notes: &mut Notes,
) -> Result<KeyRing, NodeFault>
    ensures ring { Answers (D.files store.old) (IsRingOf (D.files store.old) name.now) result }
    ensures files { D.files store.new ≡ D.files store.old }
    ensures counts { Counts (D.store_faults store.old) (D.store_faults store.new) result }
{
    let bytes = read_file(alloc, name, store, notes)?;
    read_ring(alloc, name, bytes, notes)
}

// The ring that a configuration names.
fn ring_for<D: Store>(
    alloc: Global,
    name: &Text,
    config: &Json,
    store: &mut D,
    notes: &mut Notes,
) -> Result<KeyRing, NodeFault>
    requires { IsWellFormed config.now }
    ensures ring { Answers (D.files store.old) (IsRingFor (D.files store.old) config.now) result }
    ensures files { D.files store.new ≡ D.files store.old }
    ensures counts { Counts (D.store_faults store.old) (D.store_faults store.new) result }
{
    match text_at(object_members(config), b"ring") {
        Some(ring) => open_ring(alloc, ring, store, notes),
        None => {
            explain_config(alloc, name, config, notes);
            Err(NodeFault::Input)
        }
    }
}

// Says why there is no node: the first member that isn't of its form, or what the node would state at too great a length.
fn explain_refusal(alloc: Global, name: &Text, config: &Json, member: &Text, notes: &mut Notes)
    requires { IsWellFormed config.now }
{
    match NodeConfig::read(alloc, config) {
        Ok(read) => {
            drop(read);
            explain_length(alloc, name, config, member, notes);
        }
        Err(_) => explain_config(alloc, name, config, notes),
    }
}

// The node of a configuration and its ring.
fn registry(
    alloc: Global,
    name: &Text,
    config: &Json,
    ring: KeyRing,
    notes: &mut Notes,
) -> Result<Registry, NodeFault>
    requires { IsWellFormed config.now }
    ensures node { (files : _) → Answers files (λ node. node_in config.now ring ≡ Ok node) result }
    ensures steady { (count : _) → Counts count count result }
{
    match Registry::read(alloc, config, ring) {
        Ok(registry) => Ok(registry),
        Err(ConfigFault::Shape(member)) => {
            explain_refusal(alloc, name, config, &member, notes);
            Err(NodeFault::Input)
        }
        Err(ConfigFault::Memory) => Err(NodeFault::Memory),
    }
}

// The node of a configuration.
fn node_for<D: Store>(
    alloc: Global,
    name: &Text,
    bytes: Text,
    store: &mut D,
    notes: &mut Notes,
) -> Result<Registry, NodeFault>
    ensures node { Answers (D.files store.old) (IsNodeFor (D.files store.old) bytes) result }
    ensures files { D.files store.new ≡ D.files store.old }
    ensures counts { Counts (D.store_faults store.old) (D.store_faults store.new) result }
{
    let config = read_config(alloc, name, bytes, notes)?;
    let ring = ring_for(alloc, name, &config, store, notes)?;
    registry(alloc, name, &config, ring, notes)
}

/// The node of the configuration file of that name and of the ring file that it names, or why there is none. No file is changed.
pub fn open_node<D: Store>(
    alloc: Global,
    config: &Text,
    store: &mut D,
    notes: &mut Notes,
) -> Result<Registry, NodeFault>
    ensures node { Answers (D.files store.old) (IsNodeOf (D.files store.old) config.now) result }
    ensures files { D.files store.new ≡ D.files store.old }
    ensures counts { Counts (D.store_faults store.old) (D.store_faults store.new) result }
{
    let bytes = read_file(alloc, config, store, notes)?;
    node_for(alloc, config, bytes, store, notes)
}

/// The node of the configuration file of that name, where it is an authority alone.
pub fn open_authority<D: Store>(
    alloc: Global,
    config: &Text,
    store: &mut D,
    notes: &mut Notes,
) -> Result<Registry, NodeFault>
    ensures node { Answers (D.files store.old) (λ node. IsNodeOf (D.files store.old) config.now node × IsAuthorityAlone node) result }
    ensures files { D.files store.new ≡ D.files store.old }
    ensures counts { Counts (D.store_faults store.old) (D.store_faults store.new) result }
{
    let registry = open_node(alloc, config, store, notes)?;
    if registry.resolver_config().is_some() {
        drop(registry);
        explain_resolver(alloc, config, notes);
        Err(NodeFault::Input)
    } else {
        Ok(registry)
    }
}

/// The node of the configuration file of that name, where it resolves.
pub fn open_resolver<D: Store>(
    alloc: Global,
    config: &Text,
    store: &mut D,
    notes: &mut Notes,
) -> Result<Registry, NodeFault>
    ensures node { Answers (D.files store.old) (λ node. IsNodeOf (D.files store.old) config.now node × IsResolver node) result }
    ensures files { D.files store.new ≡ D.files store.old }
    ensures counts { Counts (D.store_faults store.old) (D.store_faults store.new) result }
{
    let registry = open_node(alloc, config, store, notes)?;
    if registry.resolver_config().is_none() {
        drop(registry);
        explain_no_resolver(alloc, config, notes);
        Err(NodeFault::Input)
    } else {
        Ok(registry)
    }
}
