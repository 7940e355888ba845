// A link over a network.

ghost use Rattle.std.specs.Prelude.{◌≡◌, ◌⊎◌, None, IfOk, OnErr};
ghost use Rattle.fed_base.specs.Counts.{next_count};
ghost use Rattle.fed_ports.specs.Webs.{HasLinkCause, Serves};
ghost use Rattle.http_plain.specs.Clients.{post_of};
ghost use Rattle.http_plain.specs.Links.{AnswersBy, FailsBy, GotOrLeft, Gets, Leaves, LeavesPost, Posts, link_calls, link_network, link_routes, listening};

use crate::exchange::exchange;
use crate::networks::Connection;
use crate::poster::Poster;
use crate::posting::post_form;
use crate::route::Route;
use crate::target::{get_message, target_of};
use fed_ports::{Link, LinkFault, Network, Page, Seq, Text};
use http_messages::Break;
use std::alloc::Global;

/// A client of HTTP/1.1 (RFC 9110, RFC 9112), as a link: each call opens a connection, sends one message, reads its answer and shuts
/// the connection. It keeps no page.
#[derive(Drop)]
pub struct HttpLink<N> {
    net: N,
    routes: Seq<Route>,
    calls: u64,
}

impl<N: Network> HttpLink<N> {
    /// A link over that network. A host is reached by the first route to it, and by none where there is none.
    pub fn new(net: N, routes: Seq<Route>) -> HttpLink<N>
        ensures network { link_network result ≡ net }
        ensures routes { link_routes result ≡ routes }
        ensures calls { link_calls result ≡ 0 }
    {
        HttpLink {
            net,
            routes,
            calls: 0,
        }
    }

    /// The page with which a POST of a form is answered at a URL (RFC 9110 section 9.3.3, URL Standard section 5.2). It opens a
    /// connection, sends one message and reads its answer, as [`Link::get`] does; its pages and faults are those of a GET. The calls that
    /// are counted are GETs.
    pub fn post(&mut self, alloc: Global, url: &Text, body: &Text) -> Result<Page, LinkFault>
        ensures calls { link_calls self.new ≡ link_calls self.old }
        ensures routes { link_routes self.new ≡ link_routes self.old }
        ensures cause { HasLinkCause (N.faults (link_network self.old)) (N.faults (link_network self.new)) result }
        // The page is that of the URL, the routes, the form and the one exchange of this call; without a route nothing is opened.
        ensures page { IfOk result (λ page. Posts body.now (link_routes self.old) url.now (N.exchanges (link_network self.old)) (N.exchanges (link_network self.new)) page) }
        // After a fault at most one exchange was added: of the URL's address, in which a part of its message, and nothing else, was sent.
        ensures left { OnErr result (LeavesPost body.now (link_routes self.old) url.now (N.exchanges (link_network self.old)) (N.exchanges (link_network self.new))) }
        // Where it failed, no page had come by then: an answer that is there is read, whatever comes of the bytes behind it.
        ensures broke { FailsBy (N.exchanges (link_network self.old)) (N.exchanges (link_network self.new)) result }
        // The network listens as before, and nobody was accepted or settled.
        ensures still { listening (N.port (link_network self.new)) (N.callers (link_network self.new)) (N.settled (link_network self.new))
            ≡ listening (N.port (link_network self.old)) (N.callers (link_network self.old)) (N.settled (link_network self.old)) }
        // No connection is open afterwards, or the network is as it was.
        ensures shut { (N.is_open (link_network self.new) → ⊥) ⊎ (link_network self.new ≡ link_network self.old) }
    {
        post_form::<N, Connection>(alloc, &mut self.net, &self.routes, url, body)
    }

    /// The network that the link holds.
    pub fn into_net(self) -> N
        ensures { result ≡ link_network self }
    {
        self.net
    }
}

impl<N: Network> Link for HttpLink<N> {
    ghost calls = { λ link. link.calls };

    ghost link_faults = { λ link. N.faults link.net };

    ghost web = { λ _. None };

    // The routes stay, what was answered is by the one exchange of the call, at most, and the network listens as before.
    ghost gave = { λ old new url result. (link_routes new ≡ link_routes old)
        × GotOrLeft (link_routes old) url (N.exchanges (link_network old)) (N.exchanges (link_network new)) result
        × (listening (N.port (link_network new)) (N.callers (link_network new)) (N.settled (link_network new))
        ≡ listening (N.port (link_network old)) (N.callers (link_network old)) (N.settled (link_network old))) };

    /// The page of a URL. The connection is shut before every answer that follows an open.
    fn get(&mut self, alloc: Global, url: &Text) -> Result<Page, LinkFault>
        ensures calls { link_calls self.new ≡ next_count (link_calls self.old) }
        ensures routes { link_routes self.new ≡ link_routes self.old }
        ensures cause { HasLinkCause (N.faults (link_network self.old)) (N.faults (link_network self.new)) result }
        // The page is that of the URL, the routes and the one exchange of this call; without a route nothing is opened.
        ensures page { IfOk result (λ page. Gets (link_routes self.old) url.now (N.exchanges (link_network self.old)) (N.exchanges (link_network self.new)) page) }
        // After a fault at most one exchange was added: of the URL's address, in which a part of its message, and nothing else, was sent.
        ensures left { OnErr result (Leaves (link_routes self.old) url.now (N.exchanges (link_network self.old)) (N.exchanges (link_network self.new))) }
        // Where it failed, no page had come by then: an answer that is there is read, whatever comes of the bytes behind it.
        ensures broke { FailsBy (N.exchanges (link_network self.old)) (N.exchanges (link_network self.new)) result }
        // The network listens as before, and nobody was accepted or settled.
        ensures still { listening (N.port (link_network self.new)) (N.callers (link_network self.new)) (N.settled (link_network self.new))
            ≡ listening (N.port (link_network self.old)) (N.callers (link_network self.old)) (N.settled (link_network self.old)) }
        // No connection is open afterwards, or the network is as it was.
        ensures shut { (N.is_open (link_network self.new) → ⊥) ⊎ (link_network self.new ≡ link_network self.old) }
    {
        self.calls = self.calls.saturating_add(1);
        let target = target_of(alloc, self.routes.as_slice(), url.as_slice())?;
        let Some(target) = target else {
            return Ok(Page::NoRoute);
        };
        let message = get_message(alloc, &target.url)?;
        match exchange::<N, Connection>(alloc, &mut self.net, &target.to, message.as_bytes()) {
            Ok(page) => Ok(page),
            Err(Break::Failed) => Err(LinkFault::Failed),
            Err(Break::Memory) => Err(LinkFault::Memory),
        }
    }
}

impl<N: Network> Poster for HttpLink<N> {
    ghost post_faults = { λ link. N.faults link.net };

    // The routes stay, what was answered is by the one exchange of the call, at most, and the network listens as before.
    ghost posted = { λ old new url form result. (link_routes new ≡ link_routes old)
        × AnswersBy (post_of form) (link_routes old) url (N.exchanges (link_network old)) (N.exchanges (link_network new)) result
        × (listening (N.port (link_network new)) (N.callers (link_network new)) (N.settled (link_network new))
        ≡ listening (N.port (link_network old)) (N.callers (link_network old)) (N.settled (link_network old))) };

    fn post(&mut self, alloc: Global, url: &Text, form: &Text) -> Result<Page, LinkFault> {
        post_form::<N, Connection>(alloc, &mut self.net, &self.routes, url, form)
    }
}
