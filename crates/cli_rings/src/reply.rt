// What a command answers.

ghost use Rattle.std.specs.Prelude.{◌≡◌, None, IfOk};
ghost use Rattle.cli_rings.specs.Replies.{plain};

use fed_ports::{Memory, Text};
use std::alloc::Global;

/// The exit status, the text that goes to standard output, and the bytes that are to be kept as the command's ring file.
#[derive(Drop)]
pub struct Reply {
    pub status: u8,
    pub text: Text,
    pub kept: Option<Text>,
}

/// An answer that keeps nothing.
pub fn plain(alloc: Global, status: u8, text: &[u8]) -> Result<Reply, Memory>
    ensures { IfOk result (λ reply. reply ≡ plain status text.now) }
{
    Ok(Reply {
        status,
        text: Text::of(alloc, text)?,
        kept: None,
    })
}
