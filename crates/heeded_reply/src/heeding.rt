// A reply's marks, asked about over a network.

ghost use Rattle.std.specs.Prelude.{◌≡◌, List, length, All, IfOk, IsSome, IsTrue, OnErr};
ghost use Rattle.std.specs.List.{list_all};
ghost use Rattle.entity_statement.specs.Claims.{mark_utf8};
ghost use Rattle.entity_statement.specs.Signed.{statement_of};
ghost use Rattle.trust_mark.specs.Marks.{mark_of};
ghost use Rattle.sealed.specs.Sealing.{IsSealedFor};
ghost use Rattle.mark_status.specs.Heeding.{IsKeptOrTold, heeding_of};
ghost use Rattle.mark_status.specs.Tells.{keeps};
ghost use Rattle.resolve_reply.specs.Replies.{SaysReply, least_end};
ghost use Rattle.http_plain.specs.Networks.{listening_seen};
ghost use Rattle.heeded_reply.specs.Claims.{heeded_text};
ghost use Rattle.heeded_reply.specs.Heeding.{HeedsMarks, HeedsOver};
ghost use Rattle.heeded_reply.specs.Posted.{PostedSome};
ghost use Rattle.heeded_reply.specs.Stages.{IsHeedable, wire_seen};

use crate::arrivals::Arrivals;
use crate::asker::LinkAsker;
use crate::marks::claimed_marks;
use crate::reply::HeededReply;
use entity_statement::MarkEntry;
use fed_base::{Duplicate, Memory, OpensLedgers, Plain, Seq, Steps, Text};
use fed_ports::Network;
use http_plain::{HttpLink, Route};
use mark_status::{Heeded, Tell, heed};
use resolve_reply::{Reply, Resealed, Signer, reseal};
use std::alloc::Global;
use std::mem::replace;
use std::thread::Threads;

/// Who asks: who signs, and the moment, in seconds since 1970.
#[derive(Drop)]
pub(crate) struct Asked<'a, R> {
    pub(crate) rt: &'a R,
    pub(crate) alloc: Global,
    pub(crate) signer: &'a Signer,
    pub(crate) moment: u64,
}

/// The reply once its marks were asked about, over the network, in whose place another stands meanwhile. It makes one signature where a
/// mark isn't kept, and none else.
pub(crate) fn heed_reply<R: Threads + OpensLedgers + Sync, N: Network + Drop>(
    asked: &Asked<R>,
    reply: &Reply,
    routes: Seq<Route>,
    another: N,
    net: &mut N,
) -> Result<HeededReply, Memory>
    requires heedable { IsHeedable reply.now }
    requires sealed { IsSealedFor asked.now.signer.now.keys reply.now.text }
    ensures heeds { IfOk result (HeedsMarks asked.now.signer.now routes asked.now.moment reply.now (wire_seen N.Network net.old) (wire_seen N.Network net.new)) }
    ensures broken { OnErr result (PostedSome routes (length reply.now.configs) (N.exchanges net.old) (N.exchanges net.new)) }
    ensures still { listening_seen N.Network net.new ≡ listening_seen N.Network net.old }
{
    let marks = claimed_marks(asked.alloc, &reply.claims)?;
    let mut arrivals = Arrivals::new();
    let what = heed_over(
        asked,
        &marks,
        &reply.configs,
        routes,
        another,
        net,
        &mut arrivals,
    )?;
    let text = heeded_text(asked, reply, &what)?;
    Ok(HeededReply {
        text,
        marks,
        tells: what.tells,
        arrivals,
    })
}

// What is heeded of these marks over the network.
fn heed_over<R: OpensLedgers, N: Network + Drop>(
    asked: &Asked<R>,
    marks: &Seq<MarkEntry>,
    configs: &Seq<Text>,
    routes: Seq<Route>,
    another: N,
    net: &mut N,
    arrivals: &mut Arrivals,
) -> Result<Heeded, Memory>
    requires marks { All (λ entry. IsSome (mark_of entry.text)) marks.now }
    requires configs { All (λ config. IsSome (statement_of config)) configs.now }
    requires each { length marks.now ≡ length configs.now }
    ensures heeds { IfOk result (HeedsOver routes (heeding_of marks.now configs.now asked.now.moment) (wire_seen N.Network net.old) (wire_seen N.Network net.new)) }
    ensures left_out { IfOk result (λ what. All (IsKeptOrTold marks.now what) marks.now) }
    ensures broken { OnErr result (PostedSome routes (length marks.now) (N.exchanges net.old) (N.exchanges net.new)) }
    ensures still { listening_seen N.Network net.new ≡ listening_seen N.Network net.old }
{
    let network = replace(net, another);
    let link = HttpLink::new(network, routes);
    let mut asker = LinkAsker::new(link);
    let mut steps = Steps {
        ledger: Plain::new(asked.rt),
    };
    let what = heed(
        asked.alloc,
        &mut asker,
        marks,
        configs,
        asked.moment,
        &mut steps,
    );
    *arrivals = asker.arrivals();
    let link = asker.into_link();
    *net = link.into_net();
    what
}

// The reply's text, which is sealed anew where a mark isn't kept.
fn heeded_text<R: Threads + Sync>(
    asked: &Asked<R>,
    reply: &Reply,
    what: &Heeded,
) -> Result<Text, Memory>
    requires says { SaysReply reply.now.claims }
    requires utf8 { IsTrue (list_all mark_utf8 what.now.kept) }
    requires sealed { IsSealedFor asked.now.signer.now.keys reply.now.text }
    ensures text { IfOk result (λ text. text ≡ heeded_text asked.now.signer.now reply.now what.now) }
    ensures sealed { IfOk result (IsSealedFor asked.now.signer.now.keys) }
{
    if keeps_all(what.tells.as_slice()) {
        return reply.text.copy(asked.alloc);
    }
    let exp = least_end(reply.chain_exp, what.exp);
    let claims = reply.claims.copy(asked.alloc)?;
    let kept = what.kept.copy(asked.alloc)?;
    let resealed = reseal(asked.rt, asked.alloc, asked.signer, claims, exp, kept)?;
    let Resealed { claims, text } = resealed;
    drop(claims);
    Ok(text)
}

// Whether all marks that are told so are kept.
fn keeps_all(tells: &[Tell]) -> bool
    ensures { result ≡ list_all keeps tells.now }
{
    tells.iter().all(|tell| tell.keeps())
}

// The least of the chain's end and that of the marks, where one of them ends.
fn least_end(chain_exp: u64, exp: Option<u64>) -> u64
    ensures { result ≡ least_end chain_exp exp }
{
    match exp {
        Some(exp) => chain_exp.min(exp),
        None => chain_exp,
    }
}
