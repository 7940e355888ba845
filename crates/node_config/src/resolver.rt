// What a node needs to resolve.

ghost use Rattle.std.specs.Prelude.{◌≡◌, IsTrue, codes, map};
ghost use Rattle.fed_json.specs.Forms.{IsWellFormed, members_well_formed};
ghost use Rattle.fed_json.specs.Trees.{each};
ghost use Rattle.node_config.specs.Answers.{Reads, ReadsBy};
ghost use Rattle.node_config.specs.Forms.{needed as member_in, number_within};
ghost use Rattle.node_config.specs.Resolvers.{resolver_in, resolver_of, route_in, route_of, routes_of};
ghost use Rattle.node_config.specs.Subordinates.{anchors_of};
ghost use Rattle.node_config.specs.Told.{told_anchor, told_resolver};

use crate::addresses::read_ip;
use crate::entities::{AnchorPart, keys_at, read_anchors};
use crate::fault::FormFault;
use crate::members::{needed, number};
use fed_base::{Duplicate, Memory, Seq};
use fed_json::{Json, Member, text_at};
use fed_ports::Address;
use http_plain::Route;
use jwk_set::JwkSet;
use std::alloc::Global;

/// What a node needs to resolve.
#[derive(Drop)]
pub struct ResolverConfig {
    /// 1 to 64, all different.
    pub anchors: Seq<AnchorPart>,
    /// For how many seconds at most what was fetched is used again, 1 to 86,400.
    pub age: u64,
    /// How many connections are served at once, 1 to 16.
    pub workers: u64,
    /// The keys that sign new keys of anchors.
    pub control: JwkSet,
    /// Where hosts are reached.
    pub routes: Seq<Route>,
}

impl Duplicate for ResolverConfig {
    fn copy(&self, alloc: Global) -> Result<Self, Memory> {
        let anchors = self.anchors.copy(alloc)?;
        let control = self.control.copy(alloc)?;
        let routes = self.routes.copy(alloc)?;
        Ok(ResolverConfig {
            anchors,
            age: self.age,
            workers: self.workers,
            control,
            routes,
        })
    }
}

/// The object `resolver` of a configuration.
#[tactic(auto, unfolding(crate::specs::Resolvers::resolver_of))]
pub(crate) fn read_resolver(alloc: Global, tree: &Json) -> Result<ResolverConfig, FormFault>
    requires { IsWellFormed tree.now }
    ensures { ReadsBy told_resolver result (resolver_of tree.now) }
{
    match tree {
        Json::Object(members) => resolver_in(alloc, members.as_slice()),
        _ => Err(FormFault::Shape),
    }
}

#[tactic(auto, unfolding(crate::specs::Resolvers::resolver_in))]
fn resolver_in(alloc: Global, members: &[Member]) -> Result<ResolverConfig, FormFault>
    requires { IsTrue (members_well_formed members.now) }
    ensures { ReadsBy told_resolver result (resolver_in members.now) }
{
    let anchors = anchors_at(alloc, members)?;
    let age = number(members, b"age", 1, 86_400)?;
    let workers = number(members, b"workers", 1, 16)?;
    let control = keys_at(alloc, members, b"control")?;
    let routes = routes_at(alloc, members)?;
    Ok(ResolverConfig {
        anchors,
        age,
        workers,
        control,
        routes,
    })
}

fn anchors_at(alloc: Global, members: &[Member]) -> Result<Seq<AnchorPart>, FormFault>
    requires { IsTrue (members_well_formed members.now) }
    ensures { ReadsBy (map told_anchor) result (member_in (codes "anchors") anchors_of members.now) }
{
    read_anchors(alloc, needed(members, b"anchors")?)
}

#[tactic(auto, unfolding(crate::specs::Resolvers::routes_of))]
fn routes_at(alloc: Global, members: &[Member]) -> Result<Seq<Route>, FormFault>
    ensures { Reads result (member_in (codes "routes") routes_of members.now) }
{
    match needed(members, b"routes")? {
        Json::List(items) => each_route(alloc, items.as_slice()),
        _ => Err(FormFault::Shape),
    }
}

fn each_route(alloc: Global, items: &[Json]) -> Result<Seq<Route>, FormFault>
    ensures { Reads result (each route_of items.now) }
{
    let mut routes = Seq::new(alloc);
    for item in items {
        routes.push(read_route(alloc, item)?)?;
    }
    Ok(routes)
}

#[tactic(auto, unfolding(crate::specs::Resolvers::route_of))]
fn read_route(alloc: Global, tree: &Json) -> Result<Route, FormFault>
    ensures { Reads result (route_of tree.now) }
{
    match tree {
        Json::Object(members) => route_in(alloc, members.as_slice()),
        _ => Err(FormFault::Shape),
    }
}

#[tactic(auto, unfolding(crate::specs::Resolvers::route_in))]
fn route_in(alloc: Global, members: &[Member]) -> Result<Route, FormFault>
    ensures { Reads result (route_in members.now) }
{
    let host = text_at(members, b"host").ok_or(FormFault::Shape)?;
    let text = text_at(members, b"ip").ok_or(FormFault::Shape)?;
    let ip = read_ip(alloc, text.as_slice())?.ok_or(FormFault::Shape)?;
    let port = port_at(members)?;
    let host = host.copy(alloc)?;
    Ok(Route {
        host,
        to: Address { ip, port },
    })
}

fn port_at(members: &[Member]) -> Result<u16, FormFault>
    ensures { Reads result (member_in (codes "port") (number_within 1 65535) members.now) }
{
    let port = number(members, b"port", 1, 65_535)?;
    Ok(port as u16)
}
