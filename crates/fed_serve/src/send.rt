// The message to a request.

ghost use Rattle.std.specs.Prelude.{◌≡◌, IfOk};
ghost use Rattle.fed_ports.specs.Causes.{HasCause};
ghost use Rattle.http_messages.specs.declared.response.Response.{Response as Said};
ghost use Rattle.http_plain.specs.Responses.{HasReason};
ghost use Rattle.fed_serve.specs.Responses.{out_of_memory};
ghost use Rattle.fed_serve.specs.Steps.{IsSaid, IsSent, Sends};

use crate::handling::Answer;
use crate::served::Served;
use crate::serving::ServeFault;
use fed_ports::{Failed, Memory, Sink, write_all};
use http_plain::{Response, WriteEnd, out_of_memory, write_response};
use std::alloc::Global;

// Sends that memory was wanting. It takes none.
fn send_out_of_memory<P: Sink>(peer: &mut P) -> Result<u16, ServeFault>
    ensures sent { Sends (P.held peer.old) (P.held peer.new) out_of_memory result }
    ensures cause { HasCause (P.write_faults peer.old) (P.write_faults peer.new) result }
    ensures side { P.sink_side peer.new ≡ P.sink_side peer.old }
{
    match write_all(peer, out_of_memory()) {
        Ok(()) => {
            peer.end();
            Ok(507)
        }
        Err(Failed) => Err(ServeFault::WriteFault),
    }
}

/// Sends the response, or that memory was wanting, and says which status was written.
pub(crate) fn send<P: Sink>(
    alloc: Global,
    peer: &mut P,
    response: &Result<Response, Memory>,
) -> Result<u16, ServeFault>
    requires { IfOk response.now (λ response. HasReason response.status) }
    ensures sent { (said : Said) × IsSaid response.now said × Sends (P.held peer.old) (P.held peer.new) said result }
    ensures cause { HasCause (P.write_faults peer.old) (P.write_faults peer.new) result }
    ensures side { P.sink_side peer.new ≡ P.sink_side peer.old }
{
    let Ok(response) = response else {
        return send_out_of_memory(peer);
    };
    match write_response(alloc, peer, response) {
        Ok(()) => Ok(response.status),
        Err(WriteEnd::WriteFault) => Err(ServeFault::WriteFault),
        Err(WriteEnd::Memory) => send_out_of_memory(peer),
    }
}

/// Sends what is answered, and tells of it.
pub(crate) fn send_answer<P: Sink>(
    alloc: Global,
    peer: &mut P,
    answer: Answer,
) -> Result<Served, ServeFault>
    requires { IfOk answer.response (λ response. HasReason response.status) }
    ensures sent { IsSent (P.held peer.old) (P.held peer.new) answer result }
    ensures cause { HasCause (P.write_faults peer.old) (P.write_faults peer.new) result }
    ensures side { P.sink_side peer.new ≡ P.sink_side peer.old }
{
    let Answer {
        kind,
        response,
        trace,
    } = answer;
    let sent = send(alloc, peer, &response);
    drop(response);
    match sent {
        Ok(status) => Ok(Served {
            kind,
            status,
            trace,
        }),
        Err(fault) => {
            drop(trace);
            Err(fault)
        }
    }
}
