// Commands that work over a network.

ghost use Rattle.std.specs.Prelude.{◌≡◌, IfOk, Some, codes, option_map};
ghost use Rattle.cli_words.specs.Rehearsals.{rehearsal_of};
ghost use Rattle.cli_words.specs.Services.{authority_of, identifier_in, resolve_of, resolve_with, resolver_of};
ghost use Rattle.cli_words.specs.declared.service.Service.TheVariants.{Rehearse, Resolve};

use crate::options::{count_in, option_in, says_yes};
use crate::rehearsal::params_in;
use entity_id::EntityId;
use fed_base::{Duplicate, Memory, Text};
use std::alloc::Global;

/// The most connections that a service answers.
pub const CONNECTIONS: u64 = 1_000_000;

/// The greatest port.
pub const PORTS: u64 = 65_535;

/// What is to be done over a network, or over one in memory.
#[derive(Drop)]
pub enum Service {
    /// `authority --config FILE --port P --connections N [--stream yes]`: answer so many connections on a port, as the authority of a
    /// configuration file.
    Authority {
        config_file: Text,
        /// 1 to 65,535.
        port: u16,
        /// 1 to 1,000,000.
        connections: u64,
        /// A connection may ask more than once (RFC 9112 section 9.3).
        stream: bool,
    },
    /// `resolver --config FILE --port P --connections N`: answer so many connections on a port, some of them at once, as the resolver of a
    /// configuration file.
    Resolver {
        config_file: Text,
        /// 1 to 65,535.
        port: u16,
        /// 1 to 1,000,000.
        connections: u64,
    },
    /// `resolve --config FILE --sub ID --anchor ID [--heed yes]`: resolve an entity up to a trust anchor, as the resolver of a
    /// configuration file.
    Resolve {
        config_file: Text,
        sub: EntityId,
        anchor: EntityId,
        /// The issuers of the reply's trust marks are asked about them (OpenID Federation 1.0 section 8.4).
        heed: bool,
    },
    /// `rehearse --params N`: resolve the leaf of a federation in memory, whose metadata has so many parameters.
    Rehearse {
        /// 0 to 200.
        params: u64,
    },
}

/// What is to be done behind `rehearse`, or `None` where the words aren't of its form.
pub(crate) fn read_rehearsal(rest: &[Text]) -> Option<Service>
    ensures { result ≡ option_map Rehearse (rehearsal_of rest.now) }
{
    let params = params_in(rest)?;
    Some(Service::Rehearse { params })
}

/// The same behind `authority`.
#[tactic(auto, unfolding(crate::specs::Services::authority_of))]
pub(crate) fn read_authority(alloc: Global, rest: &[Text]) -> Result<Option<Service>, Memory>
    ensures service { IfOk result (λ service. service ≡ authority_of rest.now) }
{
    let stream = says_yes(rest, b"--stream");
    if rest.len() != 6 && (rest.len() != 8 || !stream) {
        return Ok(None);
    }
    match (
        option_in(rest, b"--config"),
        count_in(rest, b"--port", PORTS),
        count_in(rest, b"--connections", CONNECTIONS),
    ) {
        (Some(config_file), Some(port), Some(connections)) => Ok(Some(Service::Authority {
            config_file: config_file.copy(alloc)?,
            port: port as u16,
            connections,
            stream,
        })),
        _ => Ok(None),
    }
}

/// The same behind `resolver`.
#[tactic(auto, unfolding(crate::specs::Services::resolver_of))]
pub(crate) fn read_resolver(alloc: Global, rest: &[Text]) -> Result<Option<Service>, Memory>
    ensures service { IfOk result (λ service. service ≡ resolver_of rest.now) }
{
    if rest.len() != 6 {
        return Ok(None);
    }
    let port = count_in(rest, b"--port", PORTS);
    let connections = count_in(rest, b"--connections", CONNECTIONS);
    match (option_in(rest, b"--config"), port, connections) {
        (Some(config_file), Some(port), Some(connections)) => Ok(Some(Service::Resolver {
            config_file: config_file.copy(alloc)?,
            port: port as u16,
            connections,
        })),
        _ => Ok(None),
    }
}

/// The same behind `resolve`.
#[tactic(auto, unfolding(crate::specs::Services::resolve_of))]
pub(crate) fn read_resolve(alloc: Global, rest: &[Text]) -> Result<Option<Service>, Memory>
    ensures { IfOk result (λ service. service ≡ resolve_of rest.now) }
{
    let heed = says_yes(rest, b"--heed");
    if rest.len() != 6 && (rest.len() != 8 || !heed) {
        return Ok(None);
    }
    match option_in(rest, b"--config") {
        Some(config_file) => read_entities(alloc, config_file, rest, heed),
        None => Ok(None),
    }
}

// The call with this configuration file, where both entities are there.
fn read_entities(
    alloc: Global,
    config_file: &Text,
    rest: &[Text],
    heed: bool,
) -> Result<Option<Service>, Memory>
    ensures { IfOk result (λ service. service ≡ resolve_with (Some config_file.now) (identifier_in (codes "--sub") rest.now) (identifier_in (codes "--anchor") rest.now) heed) }
{
    match identifier_in(alloc, rest, b"--sub")? {
        Some(sub) => read_anchor(alloc, config_file, sub, rest, heed),
        None => Ok(None),
    }
}

// The call for this entity, where the anchor is there.
fn read_anchor(
    alloc: Global,
    config_file: &Text,
    sub: EntityId,
    rest: &[Text],
    heed: bool,
) -> Result<Option<Service>, Memory>
    ensures { IfOk result (λ service. service ≡ resolve_with (Some config_file.now) (Some sub) (identifier_in (codes "--anchor") rest.now) heed) }
{
    match identifier_in(alloc, rest, b"--anchor") {
        Ok(Some(anchor)) => resolve_call(alloc, config_file, sub, anchor, heed),
        Ok(None) => {
            drop(sub);
            Ok(None)
        }
        Err(memory) => {
            drop(sub);
            Err(memory)
        }
    }
}

fn resolve_call(
    alloc: Global,
    config_file: &Text,
    sub: EntityId,
    anchor: EntityId,
    heed: bool,
) -> Result<Option<Service>, Memory>
    ensures { IfOk result (λ service. service ≡ Some (Resolve config_file.now sub anchor heed)) }
{
    match config_file.copy(alloc) {
        Ok(config_file) => Ok(Some(Service::Resolve {
            config_file,
            sub,
            anchor,
            heed,
        })),
        Err(memory) => {
            drop(sub);
            drop(anchor);
            Err(memory)
        }
    }
}

// The entity that an option's value names.
fn identifier_in(alloc: Global, rest: &[Text], name: &[u8]) -> Result<Option<EntityId>, Memory>
    ensures { IfOk result (λ id. id ≡ identifier_in name.now rest.now) }
{
    match option_in(rest, name) {
        Some(value) => EntityId::of(alloc, value.as_slice()),
        None => Ok(None),
    }
}
