// Where a node is asked.

ghost use Rattle.std.specs.Prelude.{◌≡◌, ◌≢◌, ◌++◌, ℕ, List, IfOk, MatchOption};
ghost use Rattle.node_requests.specs.Places.{node_path, place_at};

use entity_id::{EntityId, without_slash};
use fed_base::{Duplicate, Memory, Text};
use std::alloc::Global;
use url::{ParseError, Url};

/// Where a node is asked.
#[derive(Drop)]
pub struct Place {
    /// The path of the URL that the node's identifier is, without the slash at its end.
    pub path: Text,
    /// Whether the node resolves entities.
    pub resolves: bool,
}

impl Place {
    /// Where the node of that identifier is asked.
    pub fn of(alloc: Global, id: &EntityId, resolves: bool) -> Result<Place, Memory>
        ensures { IfOk result (λ place. place ≡ place_at (node_path id.now) resolves) }
    {
        let path = node_path(alloc, id)?;
        Ok(Place { path, resolves })
    }
}

impl Duplicate for Place {
    fn copy(&self, alloc: Global) -> Result<Self, Memory> {
        let path = self.path.copy(alloc)?;
        Ok(Place {
            path,
            resolves: self.resolves,
        })
    }
}

// The path of the URL that an identifier is, without the slash at its end.
#[tactic(auto, unfolding(crate::specs::Places::node_path))]
fn node_path(alloc: Global, id: &EntityId) -> Result<Text, Memory>
    ensures { IfOk result (λ path. path ≡ node_path id.now) }
{
    let Ok(text) = std::str::from_utf8(id.text()) else {
        return Ok(Text::new(alloc));
    };
    match Url::parse(alloc, text) {
        Ok(url) => Text::of(alloc, without_slash(url.path().as_bytes())),
        Err(ParseError::OutOfMemory | ParseError::Overflow) => Err(Memory),
        Err(_) => Ok(Text::new(alloc)),
    }
}

/// What stands behind the node's path.
pub(crate) fn behind<'a>(path: &'a [u8], node: &[u8]) -> Option<&'a [u8]>
    ensures { MatchOption result ((rest : List ℕ) → path.now ≢ node.now ++ rest) (λ rest. path.now ≡ node.now ++ rest.now) }
{
    path.strip_prefix(node)
}
