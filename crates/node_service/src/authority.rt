// An authority that answers request after request.

ghost use Rattle.std.specs.Prelude.{◌≡◌, None};
ghost use Rattle.std.specs.Thread.{IsSync};
ghost use Rattle.fed_ports.specs.Times.{clock_at};
ghost use Rattle.fed_serve.specs.Moments.{answer_at};
ghost use Rattle.node_service.specs.Streams.{AnswersOne, AuthorityAt, GivesUp, authority_at};
ghost use Rattle.node_service.specs.Tools.{call_with};

use crate::tools::Tools;
use fed_ports::{Clock, Memory};
use fed_serve::{AnswerEnd, Answered, Context, Node, answer_request};
use http_messages::{Incoming, Response};
use http_stream::Answerer;
use std::alloc::Global;
use std::sync::Wait;
use std::thread::Threads;

/// An authority, and what it answers with. Each request is answered at a reading of the clock.
#[derive(Drop)]
pub(crate) struct Authority<'a, R, C> {
    pub(crate) node: &'a Node,
    pub(crate) rt: &'a R,
    pub(crate) tools: &'a mut Tools,
    pub(crate) clock: &'a mut C,
}

impl<R: Wait + Threads + Sync, C: Clock> Answerer for Authority<'_, R, C> {
    ghost state = { AuthorityAt };

    ghost at = { λ authority. authority_at authority.node.now.registry authority.clock.ghost_name
        (answer_at (clock_at (C.readings authority.clock.now) (C.last authority.clock.now) (C.told authority.clock.now)) (call_with authority.tools.now)) };

    ghost ready = { λ authority. (authority.node.now.resolver ≡ None) × IsSync R.row };

    ghost step = { λ old asked response new. AnswersOne old asked response new };

    ghost gives_up = { λ old asked new. GivesUp old asked new };

    fn answer(&mut self, alloc: Global, asked: &Incoming) -> Result<Response, Memory> {
        let t = self.clock.now();
        let context = Context {
            rt: self.rt,
            alloc,
            t,
        };
        let Tools { pass, link, steps } = &mut *self.tools;
        match answer_request(self.node, &context, pass, asked, link, steps) {
            Ok(Answered { response, served }) => {
                drop(served);
                Ok(response)
            }
            Err(AnswerEnd::Memory) => Err(Memory),
            Err(AnswerEnd::Worn(_)) => unreachable!(),
        }
    }
}
