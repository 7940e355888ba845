// Which trees are metadata.

ghost use Rattle.std.specs.Prelude.{◌≡◌, ◌↔◌, IsTrue, not};
ghost use Rattle.std.specs.List.{list_all};
ghost use Rattle.fed_json.specs.Trees.{is_null as null_tree};
ghost use Rattle.fed_json.specs.Metadata.{IsMetadata, is_object_of};

use crate::forms::is_whole;
use crate::lookup::is_null;
use crate::tree::{Json, Member};

/// Whether the tree is metadata (OpenID Federation 1.0 section 5): an object from entity type to an object from
/// parameter to a value that isn't null, with no `Odd` anywhere.
pub fn is_metadata(tree: &Json) -> bool
    ensures { IsTrue result ↔ IsMetadata tree.now }
{
    is_whole(tree) && has_types(tree)
}

fn has_types(tree: &Json) -> bool
    ensures { result ≡ is_object_of (is_object_of (λ value. not (null_tree value))) tree.now }
{
    match tree {
        Json::Object(types) => all_types(types.as_slice()),
        _ => false,
    }
}

fn all_types(types: &[Member]) -> bool
    ensures { result ≡ list_all (λ m. is_object_of (λ value. not (null_tree value)) m.value) types.now }
{
    for entity_type in types {
        if !has_parameters(&entity_type.value) {
            return false;
        }
    }
    true
}

fn has_parameters(tree: &Json) -> bool
    ensures { result ≡ is_object_of (λ value. not (null_tree value)) tree.now }
{
    match tree {
        Json::Object(parameters) => all_parameters(parameters.as_slice()),
        _ => false,
    }
}

fn all_parameters(parameters: &[Member]) -> bool
    ensures { result ≡ list_all (λ m. not (null_tree m.value)) parameters.now }
{
    for parameter in parameters {
        if is_null(&parameter.value) {
            return false;
        }
    }
    true
}
