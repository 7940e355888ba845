// What a node resolves by.

use crate::entities::anchors_at;
use crate::forms::Form;
use crate::keys::keys_in;
use crate::places::{hold, item_at, items_at, members_at, needed, number_in, text_in, under};
use crate::stop::Stop;
use fed_json::{Json, Member};
use fed_ports::listen_address;
use std::alloc::Global;

/// Stops where what stands at the place doesn't say how a node resolves.
pub(crate) fn resolver_at(alloc: Global, place: &[u8], tree: &Json) -> Result<(), Stop> {
    let members = members_at(alloc, place, Form::Resolver, tree)?;
    let anchors = needed(alloc, place, members, b"anchors", Form::Anchors)?;
    let at = under(alloc, place, b"anchors")?;
    anchors_at(alloc, at.as_slice(), anchors)?;
    number_in(alloc, place, members, b"age", 1, 86_400)?;
    number_in(alloc, place, members, b"workers", 1, 16)?;
    keys_in(alloc, place, members, b"control")?;
    routes_in(alloc, place, members)
}

fn routes_in(alloc: Global, place: &[u8], members: &[Member]) -> Result<(), Stop> {
    let routes = needed(alloc, place, members, b"routes", Form::Routes)?;
    let place = under(alloc, place, b"routes")?;
    let routes = items_at(alloc, place.as_slice(), Form::Routes, routes)?;
    for (index, route) in routes.iter().enumerate() {
        let at = item_at(alloc, place.as_slice(), index)?;
        route_at(alloc, at.as_slice(), route)?;
    }
    Ok(())
}

fn route_at(alloc: Global, place: &[u8], tree: &Json) -> Result<(), Stop> {
    let members = members_at(alloc, place, Form::Route, tree)?;
    text_in(alloc, place, members, b"host", Form::Text)?;
    let ip = needed(alloc, place, members, b"ip", Form::Address)?;
    let at = under(alloc, place, b"ip")?;
    hold(alloc, at.as_slice(), Form::Address, ip, is_address(ip))?;
    number_in(alloc, place, members, b"port", 1, 65_535)
}

fn is_address(tree: &Json) -> bool {
    match tree {
        Json::Text(text) => listen_address(text.as_slice()).is_some(),
        _ => false,
    }
}
