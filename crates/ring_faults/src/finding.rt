// The first fault of a ring's file.

ghost use Rattle.std.specs.Prelude.{◌<◌, IfSome, length};
ghost use Rattle.ring_faults.specs.Faults.{IsFaultOf, IsFileFault, IsToldOf};

use crate::bytes::text_fault;
use crate::file_fault::FileFault;
use crate::key_fault::{KeyFault, is_live, key_fault};
use fed_json::{Json, TreeFault, find, object_members, read_tree};
use key_ring::{Version, version_in};
use std::alloc::Global;

/// Why the file isn't that of a ring. Its form is looked at key by key; that all are of their form, and one is there twice, is `Other`.
pub fn ring_fault(alloc: Global, file: &[u8]) -> FileFault
    ensures { IsFileFault file.now result }
{
    match read_tree(alloc, file) {
        Ok(tree) => tree_fault(&tree),
        Err(TreeFault::Syntax) => FileFault::Text(text_fault(file)),
        Err(TreeFault::Memory) => FileFault::Memory,
    }
}

#[tactic(auto, unfolding(key_ring::specs::Readings::listed_in))]
fn tree_fault(tree: &Json) -> FileFault
    ensures { IsFaultOf tree.now result }
{
    let Json::Object(members) = tree else {
        return FileFault::NoKeys;
    };
    match find(members.as_slice(), b"keys") {
        Some(Json::List(keys)) => keys_fault(version_in(tree), keys.as_slice()),
        _ => FileFault::NoKeys,
    }
}

fn keys_fault(version: Option<Version>, keys: &[Json]) -> FileFault
    ensures { IsToldOf keys.now result }
{
    if keys.is_empty() || keys.len() > 16 {
        return FileFault::Count(keys.len() as u64);
    }
    match first_fault(version, keys) {
        Some((place, fault)) => FileFault::Key(place, fault),
        None => whole_fault(version, keys),
    }
}

// The first of the keys that isn't of its form, and what is wrong with it.
fn first_fault(version: Option<Version>, keys: &[Json]) -> Option<(u64, KeyFault)>
    ensures { IfSome result (λ found. found.0 < length keys.now) }
{
    for (place, key) in keys.iter().enumerate() {
        if let Some(fault) = key_fault(version, object_members(key)) {
            return Some((place as u64, fault));
        }
    }
    None
}

// What is wrong with a file whose keys have their members.
fn whole_fault(version: Option<Version>, keys: &[Json]) -> FileFault
    ensures { IsToldOf keys.now result }
{
    if version.is_none() {
        FileFault::NoVersion
    } else if keys.iter().any(|key| is_live(object_members(key))) {
        FileFault::Other
    } else {
        FileFault::NoLive
    }
}

/// Whether the bytes are a text that says version 1 of a ring's file, which no change of a ring leaves.
pub fn is_old_ring(alloc: Global, file: &[u8]) -> bool {
    match read_tree(alloc, file) {
        Ok(tree) => matches!(version_in(&tree), Some(Version::First)),
        Err(_) => false,
    }
}
