// Paths from a leaf upwards.

ghost use Rattle.std.specs.Prelude.{◌≡◌, ◌<◌, length, IfOk, OnOk};
ghost use Rattle.chain_climb.specs.Climbs.{alone, last_of, longer, with_chain};

use entity_id::EntityId;
use fed_base::{Duplicate, Memory, Seq, Text};
use std::alloc::Global;

/// Entities from the leaf up, each hinted by the one before it, and the URLs at which their texts stand: the leaf's configuration, then
/// each superior's statement about the entity before it. In a path that is judged or found the URL of the last entity's configuration
/// comes last, where there is more than one entity.
#[derive(Drop)]
pub struct Path {
    pub entities: Seq<EntityId>,
    pub urls: Seq<Text>,
}

impl Duplicate for Path {
    fn copy(&self, alloc: Global) -> Result<Self, Memory> {
        let entities = self.entities.copy(alloc)?;
        let urls = self.urls.copy(alloc)?;
        Ok(Path { entities, urls })
    }
}

impl Path {
    // The path of the leaf alone.
    pub fn alone(alloc: Global, leaf: &EntityId) -> Result<Path, Memory>
        ensures { IfOk result (λ path. path ≡ alone leaf.now) }
    {
        let mut path = Path {
            entities: Seq::new(alloc),
            urls: Seq::new(alloc),
        };
        path.add(alloc, leaf, leaf.well_known(alloc)?)?;
        Ok(path)
    }

    // The path with a superior more, whose statement stands at the URL.
    pub fn longer(&self, alloc: Global, superior: &EntityId, url: Text) -> Result<Path, Memory>
        ensures { IfOk result (λ path. path ≡ longer self.now (record { issuer = superior.now; subject = superior.now; url = url })) }
    {
        let mut path = self.copy(alloc)?;
        path.add(alloc, superior, url)?;
        Ok(path)
    }

    // Adds an entity, and the URL at which its text stands.
    fn add(&mut self, alloc: Global, entity: &EntityId, url: Text) -> Result<(), Memory>
        ensures { OnOk result (self.new ≡ longer self.old (record { issuer = entity.now; subject = entity.now; url = url })) }
    {
        self.entities.push(entity.copy(alloc)?)?;
        self.urls.push(url)?;
        Ok(())
    }

    // The last entity.
    pub fn last(&self) -> &EntityId
        requires { 0 < length self.now.entities }
        ensures { result.now ≡ last_of self.now }
    {
        let entities = self.entities.as_slice();
        &entities[entities.len() - 1]
    }

    // The path with the URLs of its chain.
    pub fn with_chain(&self, alloc: Global) -> Result<Path, Memory>
        requires { 0 < length self.now.entities }
        ensures { IfOk result (λ path. path ≡ with_chain self.now) }
    {
        let mut path = self.copy(alloc)?;
        if self.entities.len() > 1 {
            path.urls.push(self.last().well_known(alloc)?)?;
        }
        Ok(path)
    }
}
