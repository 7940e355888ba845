// Replies that keep nothing.

ghost use Rattle.std.specs.Prelude.{◌≡◌, ◌≤◌, IfOk};
ghost use Rattle.cli_rings.specs.Replies.{refused};
ghost use Rattle.cli_inspect.specs.Publics.{on_line};

use cli_rings::Reply;
use fed_ports::{Memory, Text};
use std::alloc::Global;

/// The text on a line, with status 0.
pub(crate) fn on_line(mut text: Text) -> Result<Reply, Memory>
    ensures reply { IfOk result (λ reply. reply ≡ on_line text) }
    ensures small { IfOk result (λ reply. reply.status ≤ 2) }
{
    text.push(b'\n')?;
    Ok(Reply {
        status: 0,
        text,
        kept: None,
    })
}

/// The refusal for this reason, with status 1.
pub(crate) fn refused(alloc: Global, reason: &[u8]) -> Result<Reply, Memory>
    ensures reply { IfOk result (λ reply. reply ≡ refused reason.now) }
    ensures small { IfOk result (λ reply. reply.status ≤ 2) }
{
    let mut line = Text::of(alloc, b"refused ")?;
    line.append(reason)?;
    line.push(b'\n')?;
    Ok(Reply {
        status: 1,
        text: line,
        kept: None,
    })
}
