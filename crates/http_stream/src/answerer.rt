// What answers the requests of a stream.

ghost use Rattle.std.specs.Prelude.{IfOk, OnErr};
ghost use Rattle.http_messages.specs.Responses.{HasReason};
ghost use Rattle.http_messages.specs.declared.request.Incoming.{Incoming as AnyIncoming};
ghost use Rattle.http_messages.specs.declared.response.Response.{Response as AnyResponse};

use fed_ports::Memory;
use http_messages::{Incoming, Response};
use std::alloc::Global;

/// What answers the requests of a stream, one after the other.
pub trait Answerer {
    /// What its answers depend on, and what they change.
    ghost state: { Type 0 };

    ghost at: { Self → state };

    /// It can be asked.
    ghost ready: { Self → Type 0 };

    /// One answer: the state before it, what was asked, the response, and the state behind it.
    ghost step: { state → AnyIncoming → AnyResponse → state → Type 0 };

    /// What was asked isn't answered, for want of memory: the state before that and behind it.
    ghost gives_up: { state → AnyIncoming → state → Type 0 };

    /// The response to a request, or to bytes that aren't one. Its status has a reason (RFC 9110 section 15).
    fn answer(&mut self, alloc: Global, asked: &Incoming) -> Result<Response, Memory>
        requires ready { ready self.old }
        ensures ready { ready self.new }
        ensures step { IfOk result (λ response. step (at self.old) asked.now response (at self.new)) }
        ensures reason { IfOk result (λ response. HasReason response.status) }
        ensures gives_up { OnErr result (gives_up (at self.old) asked.now (at self.new)) };
}
