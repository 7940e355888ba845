// The metadata of a node's configuration, with its endpoints.

ghost use Rattle.std.specs.Prelude.{◌≡◌, ◌++◌, [], IfOk, OnOk, IsTrue, map, is_some, true};
ghost use Rattle.entity_id.specs.Identifiers.{IsIdentifier};
ghost use Rattle.fed_json.specs.Forms.{rising};
ghost use Rattle.fed_json.specs.Metadata.{IsMetadata};
ghost use Rattle.fed_json.specs.Trees.{member_name, object_members as members_of};
ghost use Rattle.node_config.specs.Stated.{AreOwn};
ghost use Rattle.node_config.specs.Told.{told};
ghost use Rattle.chain_check.specs.Metadata.{parameters_over as over};
ghost use Rattle.chain_check.proofs.Overrides.{formed, is_type, is_value};
ghost use Rattle.std.specs.Option.{option_map_or};
ghost use Rattle.authority_core.specs.Endpoints.{endpoint_member, endpoints_of, federation_entity, has_any};
ghost use Rattle.authority_core.specs.Endpoints.{member_where, own_metadata, parameters_of, types_with};

use entity_id::without_slash;
use fed_base::{Duplicate, Memory, Seq, Text};
use fed_json::{Json, Member, Sides, find, object_members};
use node_config::NodeConfig;
use std::alloc::Global;

// The entity type of a node's own endpoints (OpenID Federation 1.0 section 5.1.1).
const FEDERATION_ENTITY: &[u8] = b"federation_entity";

/// The metadata of the node's configuration.
#[tactic(auto, unfolding(crate::specs::Endpoints::own_metadata))]
pub(crate) fn own_metadata(alloc: Global, node: &NodeConfig) -> Result<Json, Memory>
    requires { AreOwn node.now.claims }
    ensures tree { IfOk result (λ tree. tree ≡ own_metadata (told node.now)) }
    ensures metadata { IfOk result IsMetadata }
{
    let types = configured(&node.claims.metadata);
    let endpoints = endpoints(alloc, node)?;
    let types = types_with(alloc, endpoints.as_slice(), types)?;
    Ok(Json::Object(types))
}

// The entity types that are configured.
fn configured(metadata: &Option<Json>) -> &[Member]
    ensures { result.now ≡ option_map_or members_of metadata.now [] }
{
    match metadata {
        Some(tree) => object_members(tree),
        None => &[],
    }
}

// The configured types, with the endpoints over what is configured in the node's own.
fn types_with(alloc: Global, endpoints: &[Member], types: &[Member]) -> Result<Seq<Member>, Memory>
    requires endpoints { formed is_value endpoints.now ≡ true }
    requires types { formed is_type types.now ≡ true }
    ensures { IfOk result (λ all. all ≡ types_with endpoints.now types.now) }
{
    let configured = parameters_of(types, FEDERATION_ENTITY);
    let parameters = members_over(alloc, endpoints, configured)?;
    let mut own = Seq::new(alloc);
    own.push(Member {
        name: Text::of(alloc, FEDERATION_ENTITY)?,
        value: Json::Object(parameters),
    })?;
    members_over(alloc, own.as_slice(), types)
}

// The parameters of that entity type.
fn parameters_of<'a>(types: &'a [Member], entity_type: &[u8]) -> &'a [Member]
    ensures { result.now ≡ parameters_of entity_type.now types.now }
{
    match find(types, entity_type) {
        Some(tree) => object_members(tree),
        None => &[],
    }
}

// The members of both, in byte order of their names; of two with one name the upper.
fn members_over(alloc: Global, upper: &[Member], own: &[Member]) -> Result<Seq<Member>, Memory>
    requires upper { IsTrue (rising (map member_name upper.now)) }
    requires own { IsTrue (rising (map member_name own.now)) }
    ensures { IfOk result (λ all. all ≡ over upper.now own.now) }
{
    let mut all = Seq::new(alloc);
    let mut sides = Sides { upper, lower: own };
    while let Some(side) = sides.next() {
        if let Some(member) = side.upper.or(side.lower) {
            all.push(member.copy(alloc)?)?;
        }
    }
    Ok(all)
}

// The endpoints that the node has.
fn endpoints(alloc: Global, node: &NodeConfig) -> Result<Seq<Member>, Memory>
    ensures members { IfOk result (λ endpoints. endpoints ≡ endpoints_of (told node.now)) }
    ensures formed { IfOk result (λ endpoints. formed is_value endpoints ≡ true) }
{
    let mut all = Seq::new(alloc);
    push_endpoints(alloc, &mut all, node)?;
    Ok(all)
}

// Adds the endpoints that the node has.
fn push_endpoints(alloc: Global, all: &mut Seq<Member>, node: &NodeConfig) -> Result<(), Memory>
    ensures members { OnOk result (all.old ≡ [] → all.new ≡ endpoints_of (told node.now)) }
    ensures identifier { OnOk result (IsIdentifier node.now.id) }
{
    let id = node.id.text();
    let above = has_any(node);
    push_where(
        all,
        above,
        endpoint(alloc, id, b"federation_fetch_endpoint", b"/fetch")?,
    )?;
    all.push(endpoint(
        alloc,
        id,
        b"federation_historical_keys_endpoint",
        b"/historical-keys",
    )?)?;
    push_where(
        all,
        above,
        endpoint(alloc, id, b"federation_list_endpoint", b"/list")?,
    )?;
    push_where(
        all,
        resolves(node),
        endpoint(alloc, id, b"federation_resolve_endpoint", b"/resolve")?,
    )?;
    all.push(endpoint(
        alloc,
        id,
        b"federation_trust_mark_status_endpoint",
        b"/trust-mark-status",
    )?)?;
    Ok(())
}

// Whether the node has subordinates.
fn has_any(node: &NodeConfig) -> bool
    ensures { result ≡ has_any (told node.now).subordinates }
{
    match node.subordinates.as_slice().split_first() {
        Some(_) => true,
        None => false,
    }
}

// Whether the node resolves.
fn resolves(node: &NodeConfig) -> bool
    ensures { result ≡ is_some (told node.now).resolver }
{
    match &node.resolver {
        Some(_) => true,
        None => false,
    }
}

// A parameter that tells an endpoint.
fn endpoint(alloc: Global, id: &[u8], name: &[u8], path: &[u8]) -> Result<Member, Memory>
    ensures { IfOk result (λ member. member ≡ endpoint_member id.now name.now path.now) }
{
    let mut url = Text::of(alloc, without_slash(id))?;
    url.append(path)?;
    let name = Text::of(alloc, name)?;
    Ok(Member {
        name,
        value: Json::Text(url),
    })
}

// Adds a member where that is so.
fn push_where(members: &mut Seq<Member>, so: bool, member: Member) -> Result<(), Memory>
    ensures { OnOk result (members.new ≡ members.old ++ member_where so member) }
{
    if so { members.push(member) } else { Ok(()) }
}
