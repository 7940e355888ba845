// One exchange over a connection.

ghost use Rattle.std.specs.Prelude.{◌≡◌, IfOk, OnOk, OnErr};
ghost use Rattle.fed_ports.specs.Causes.{HasCause};
ghost use Rattle.fed_ports.specs.Exchanges.{Changed, with_sent};
ghost use Rattle.http_messages.specs.Flows.{BreakCause, OnFailed};
ghost use Rattle.http_messages.specs.Asked.{AsksPart};
ghost use Rattle.http_plain.specs.Links.{AddsBroken, AddsExchange, Answers};
ghost use Rattle.http_plain.specs.Plans.{SentBroken};

use crate::networks::Wire;
use crate::page::read_page;
use fed_ports::{Address, Failed, Page};
use http_messages::Break;
use std::alloc::Global;

// Sends the whole message.
fn send_all<T, W: Wire<T>>(net: &mut T, message: &[u8]) -> Result<(), Failed>
    requires { W.ready net.old }
    ensures open { W.ready net.new }
    ensures told { OnOk result (Changed (W.told net.old) (with_sent message.now) (W.told net.new)) }
    ensures part { OnErr result (SentBroken (W.told net.old) message.now (W.told net.new)) }
    ensures still { W.fixed_of net.new ≡ W.fixed_of net.old }
    ensures cause { HasCause (W.in_faults net.old) (W.in_faults net.new) result }
{
    let mut at = 0;
    while at < message.len() {
        at += W::send(net, &message[at..])?;
    }
    Ok(())
}

// Sends a message to an address, and reads the page that comes.
pub(crate) fn exchange<T, W: Wire<T>>(
    alloc: Global,
    net: &mut T,
    to: &Address,
    message: &[u8],
) -> Result<Page, Break>
    ensures page { IfOk result (λ page. AddsExchange (W.told net.old) (W.told net.new) (λ x. Answers x to.now message.now page)) }
    ensures left { OnErr result (AsksPart (W.told net.old) (W.told net.new) to.now message.now) }
    ensures broke { OnFailed result (AddsBroken (W.told net.old) (W.told net.new)) }
    ensures shut { W.ready net.new → ⊥ }
    ensures still { W.fixed_of net.new ≡ W.fixed_of net.old }
    ensures cause { BreakCause (W.in_faults net.old) (W.in_faults net.new) result }
{
    if W::open(net, to).is_err() {
        return Err(Break::Failed);
    }
    if send_all::<T, W>(net, message).is_err() {
        W::shut(net);
        return Err(Break::Failed);
    }
    let page = read_page::<T, W>(alloc, net);
    W::shut(net);
    page
}
