// Answering one request.

ghost use Rattle.std.specs.Prelude.{◌≡◌};
ghost use Rattle.http_messages.specs.Responses.{HasReason};
ghost use Rattle.http_messages.specs.Writings.{WriteCause as WritingCause, WritesWith};
ghost use Rattle.http_stream.specs.Conversations.{AnswersOne, connection_word};
ghost use Rattle.http_stream.specs.Cuttings.{WriteCause};

use crate::answerer::Answerer;
use crate::fault::StreamFault;
use fed_ports::{Failed, Sink, write_all};
use http_messages::{Incoming, Response, WriteEnd, out_of_memory, write_kept, write_response};
use std::alloc::Global;

// Writes a response, which says whether its connection goes on.
fn write_reply<P: Sink>(
    alloc: Global,
    to: &mut P,
    response: &Response,
    last: bool,
) -> Result<(), WriteEnd>
    requires { HasReason response.now.status }
    ensures written { WritesWith (connection_word last) (P.held to.old) (P.held to.new) response.now result }
    ensures cause { WritingCause (P.write_faults to.old) (P.write_faults to.new) result }
    ensures side { P.sink_side to.new ≡ P.sink_side to.old }
{
    if last {
        write_response(alloc, to, response)
    } else {
        write_kept(alloc, to, response)
    }
}

/// Answers one request, and ends the connection where it is the last. Where memory is wanting for its response, that is said in its place.
pub(crate) fn answer_one<P: Sink, A: Answerer>(
    alloc: Global,
    to: &mut P,
    answerer: &mut A,
    asked: &Incoming,
    last: bool,
) -> Result<(), StreamFault>
    requires ready { A.ready answerer.old }
    ensures ready { A.ready answerer.new }
    ensures answers { AnswersOne A.step A.gives_up last (P.held to.old) (P.held to.new) (A.at answerer.old) asked.now (A.at answerer.new) result }
    ensures side { P.sink_side to.new ≡ P.sink_side to.old }
    ensures cause { WriteCause (P.write_faults to.old) (P.write_faults to.new) result }
{
    let Ok(response) = answerer.answer(alloc, asked) else {
        return match write_all(to, out_of_memory()) {
            Ok(()) => {
                to.end();
                Err(StreamFault::Memory)
            }
            Err(Failed) => Err(StreamFault::WriteFault),
        };
    };
    match write_reply(alloc, to, &response, last) {
        Ok(()) => Ok(()),
        Err(WriteEnd::WriteFault) => Err(StreamFault::WriteFault),
        Err(WriteEnd::Memory) => Err(StreamFault::Memory),
    }
}
