// What a relying party posts.

ghost use Rattle.std.specs.Prelude.{◌≡◌, IfOk};
ghost use Rattle.entity_statement.specs.Told.{told};
ghost use Rattle.client_register.specs.Requests.{chain_in, configured, entity_in, posted_in};

use entity_id::EntityId;
use entity_statement::{SignedStatement, Statement};
use fed_base::{Duplicate, Memory, Seq, Text};
use fed_json::{TreeFault, copied_texts, read_tree};
use std::alloc::Global;

/// What a relying party posted to register itself (OpenID Federation 1.0 section 12.2.1).
#[derive(Drop)]
pub enum Posted {
    /// The texts of a trust chain, as a JSON list.
    Chain(Seq<Text>),
    /// The configuration of this entity, as compact text.
    Configuration(EntityId),
    /// Neither.
    Neither,
}

impl Posted {
    /// What the bytes of a request are. Signatures aren't looked at.
    #[tactic(auto, unfolding(crate::specs::Requests::posted_in))]
    pub fn read(alloc: Global, bytes: &[u8]) -> Result<Posted, Memory>
        ensures { IfOk result (λ posted. posted ≡ posted_in bytes.now) }
    {
        if let Some(texts) = read_chain(alloc, bytes)? {
            return Ok(Posted::Chain(texts));
        }
        match read_entity(alloc, bytes)? {
            Some(entity) => Ok(Posted::Configuration(entity)),
            None => Ok(Posted::Neither),
        }
    }
}

// The texts of a JSON list of texts.
#[tactic(auto, unfolding(crate::specs::Requests::chain_in))]
fn read_chain(alloc: Global, bytes: &[u8]) -> Result<Option<Seq<Text>>, Memory>
    ensures { IfOk result (λ texts. texts ≡ chain_in bytes.now) }
{
    match read_tree(alloc, bytes) {
        Ok(tree) => copied_texts(alloc, &tree),
        Err(TreeFault::Syntax) => Ok(None),
        Err(TreeFault::Memory) => Err(Memory),
    }
}

// The entity that a compact text is the configuration of.
#[tactic(auto, unfolding(crate::specs::Requests::entity_in))]
fn read_entity(alloc: Global, bytes: &[u8]) -> Result<Option<EntityId>, Memory>
    ensures { IfOk result (λ entity. entity ≡ entity_in bytes.now) }
{
    let Some(signed) = SignedStatement::read(alloc, bytes)? else {
        return Ok(None);
    };
    let entity = configured(alloc, &signed.statement);
    drop(signed);
    entity
}

// The entity that a statement is the configuration of.
fn configured(alloc: Global, statement: &Statement) -> Result<Option<EntityId>, Memory>
    ensures { IfOk result (λ entity. entity ≡ configured (told statement.now)) }
{
    if statement.iss == statement.sub {
        Ok(Some(statement.sub.copy(alloc)?))
    } else {
        Ok(None)
    }
}
