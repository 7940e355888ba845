// The post of a form over a network.

ghost use Rattle.std.specs.Prelude.{◌≡◌, ◌⊎◌, IfOk, OnErr};
ghost use Rattle.fed_ports.specs.Webs.{HasLinkCause};
ghost use Rattle.http_plain.specs.Links.{FailsBy, LeavesPost, Posts};

use crate::exchange::exchange;
use crate::networks::Wire;
use crate::route::Route;
use crate::target::{post_message, target_of};
use fed_ports::{LinkFault, Page, Seq, Text};
use http_messages::Break;
use std::alloc::Global;

/// Posts a form to a URL by these routes, and reads the page that comes. Without a route nothing is opened.
pub(crate) fn post_form<T, W: Wire<T>>(
    alloc: Global,
    net: &mut T,
    routes: &Seq<Route>,
    url: &Text,
    body: &Text,
) -> Result<Page, LinkFault>
    ensures page { IfOk result (λ page. Posts body.now routes.now url.now (W.told net.old) (W.told net.new) page) }
    ensures left { OnErr result (LeavesPost body.now routes.now url.now (W.told net.old) (W.told net.new)) }
    ensures broke { FailsBy (W.told net.old) (W.told net.new) result }
    ensures shut { (W.ready net.new → ⊥) ⊎ (net.new ≡ net.old) }
    ensures still { W.fixed_of net.new ≡ W.fixed_of net.old }
    ensures cause { HasLinkCause (W.in_faults net.old) (W.in_faults net.new) result }
{
    let target = target_of(alloc, routes.as_slice(), url.as_slice())?;
    let Some(target) = target else {
        return Ok(Page::NoRoute);
    };
    let message = post_message(alloc, &target.url, body.as_slice())?;
    match exchange::<T, W>(alloc, net, &target.to, &message) {
        Ok(page) => Ok(page),
        Err(Break::Failed) => Err(LinkFault::Failed),
        Err(Break::Memory) => Err(LinkFault::Memory),
    }
}
