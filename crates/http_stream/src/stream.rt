// Serving the requests of a connection.

ghost use Rattle.std.specs.Prelude.{◌≡◌, ◌≤◌, Err, IfOk};
ghost use Rattle.http_stream.specs.declared.fault.StreamFault.TheVariants.{Ended};
ghost use Rattle.http_stream.specs.Conversations.{Serves, stream_at};
ghost use Rattle.http_stream.specs.Streams.{AreRequests, EndInside};

use crate::answerer::Answerer;
use crate::answering::answer_one;
use crate::cutting::next_cut;
use crate::fault::StreamFault;
use crate::inbox::Inbox;
use fed_ports::Peer;
use http_messages::Cut;
use std::alloc::Global;

// Answers the requests of a connection in order.
fn serve_requests<P: Peer, A: Answerer>(
    alloc: Global,
    peer: &mut P,
    answerer: &mut A,
    most: u64,
) -> Result<u64, StreamFault>
    requires some { 1 ≤ most }
    requires ready { A.ready answerer.old }
    ensures ready { A.ready answerer.new }
    ensures served { Serves A.step A.gives_up most
        (stream_at (P.left peer.old) (P.held peer.old) (P.read_faults peer.old) (P.write_faults peer.old) (A.at answerer.old))
        (stream_at (P.left peer.new) (P.held peer.new) (P.read_faults peer.new) (P.write_faults peer.new) (A.at answerer.new)) result }
{
    let mut inbox = Inbox::new(alloc);
    let mut left = most;
    loop {
        let Cut::Whole { asked, last, used } = next_cut(alloc, peer, &mut inbox)? else {
            return if inbox.bytes().is_empty() {
                Ok(most - left)
            } else {
                Err(StreamFault::Ended)
            };
        };
        inbox.skip(used);
        let is_last = last || left == 1;
        answer_one(alloc, peer, answerer, &asked, is_last)?;
        if is_last {
            return Ok(most - left + 1);
        }
        left -= 1;
    }
}

/// Answers the requests of a connection in order, at most so many, and says how many (RFC 9112 sections 9.3 and 9.6). A response says
/// `Connection: close` where its request is the last: where its sender closes, where no more may come, or where the bytes aren't a request
/// of a stream. Nothing is read behind that. `Ok` comes there, and where the bytes end behind a request or before the first.
pub fn serve_stream<P: Peer, A: Answerer>(
    alloc: Global,
    peer: &mut P,
    answerer: &mut A,
    most: u64,
) -> Result<u64, StreamFault>
    requires some { 1 ≤ most }
    requires ready { A.ready answerer.old }
    ensures ready { A.ready answerer.new }
    ensures served { Serves A.step A.gives_up most
        (stream_at (P.left peer.old) (P.held peer.old) (P.read_faults peer.old) (P.write_faults peer.old) (A.at answerer.old))
        (stream_at (P.left peer.new) (P.held peer.new) (P.read_faults peer.new) (P.write_faults peer.new) (A.at answerer.new)) result }
    // Where the peer tells its bytes, they are so many requests, with nothing behind them but what follows the last.
    ensures whole { IfOk result (AreRequests most (P.left peer.old)) }
    // They end inside a request.
    ensures ended { result ≡ Err Ended → EndInside most (P.left peer.old) }
{
    serve_requests(alloc, peer, answerer, most)
}
