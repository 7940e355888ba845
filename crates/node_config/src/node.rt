// A node's configuration.

ghost use Rattle.std.specs.Prelude.{◌≡◌, IfOk, IsTrue};
ghost use Rattle.std.specs.List.{AllByRecursion};
ghost use Rattle.fed_json.specs.Forms.{IsWellFormed, members_well_formed};
ghost use Rattle.node_config.specs.Answers.{GivesBy};
ghost use Rattle.node_config.specs.Configurations.{configuration_in, settings_in};
ghost use Rattle.node_config.specs.Stated.{AreOwn, IsSubordinate};
ghost use Rattle.node_config.specs.Told.{told};

use crate::fault::ConfigFault;
use crate::resolver::ResolverConfig;
use crate::settings::{OwnClaims, basics_in, further_in, own_claims_in};
use crate::subordinates::SubordinateConfig;
use entity_id::EntityId;
use fed_base::{Seq, Text};
use fed_json::{Json, Member};
use std::alloc::Global;

/// A node's configuration.
#[derive(Drop)]
pub struct NodeConfig {
    pub id: EntityId,
    /// The name of the file of the node's key ring.
    pub ring: Text,
    /// For how many seconds what the node issues holds, 60 to 31,536,000.
    pub lifetime: u64,
    pub claims: OwnClaims,
    /// At most 10,000, all different, none the node itself.
    pub subordinates: Seq<SubordinateConfig>,
    /// The texts of the trust marks that the node revoked.
    pub revoked: Seq<Text>,
    pub resolver: Option<ResolverConfig>,
}

impl NodeConfig {
    /// What a configuration sets, or the first member that isn't of its form, in this order: `entity_id`, `ring`, `lifetime`, `metadata`,
    /// `authority_hints`, `trust_marks`, `trust_mark_issuers`, `trust_mark_owners`, `subordinates`, `revoked_marks`, `resolver`. Members of
    /// other names are left unread.
    #[tactic(auto, unfolding(crate::specs::Configurations::configuration_in))]
    pub fn read(alloc: Global, config: &Json) -> Result<NodeConfig, ConfigFault>
        requires { IsWellFormed config.now }
        ensures exact { GivesBy told result (configuration_in config.now) }
        ensures own { IfOk result (λ node. AreOwn node.claims) }
        ensures about { IfOk result (λ node. AllByRecursion IsSubordinate node.subordinates) }
    {
        match config {
            Json::Object(members) => settings_in(alloc, members.as_slice()),
            _ => Err(ConfigFault::Shape(Text::of(alloc, b"entity_id")?)),
        }
    }
}

#[tactic(auto, unfolding(crate::specs::Configurations::settings_in))]
fn settings_in(alloc: Global, members: &[Member]) -> Result<NodeConfig, ConfigFault>
    requires { IsTrue (members_well_formed members.now) }
    ensures exact { GivesBy told result (settings_in members.now) }
    ensures own { IfOk result (λ node. AreOwn node.claims) }
    ensures about { IfOk result (λ node. AllByRecursion IsSubordinate node.subordinates) }
{
    let basics = basics_in(alloc, members)?;
    let claims = match own_claims_in(alloc, members) {
        Ok(claims) => claims,
        Err(fault) => {
            drop(basics);
            return Err(fault);
        },
    };
    match further_in(alloc, members, &basics.id) {
        Ok(further) => Ok(NodeConfig {
            id: basics.id,
            ring: basics.ring,
            lifetime: basics.lifetime,
            claims,
            subordinates: further.subordinates,
            revoked: further.revoked,
            resolver: further.resolver,
        }),
        Err(fault) => {
            drop(basics);
            drop(claims);
            Err(fault)
        },
    }
}
