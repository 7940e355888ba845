// What is shown of the input.

ghost use Rattle.std.specs.Prelude.{◌≡◌, ◌≤◌, ℕ, IfOk, MatchResult, Some};
ghost use Rattle.cli_commands.specs.Answers.{StopsAs};
ghost use Rattle.cli_inspect.specs.Shows.{IsShowReply, show_reply, status_of, view_by};

use cli_commands::{Stop, read_text};
use cli_rings::{Reply, plain};
use cli_show::{View, show, show_claims};
use fed_ports::{Memory, Source};
use file_notes::explain_long_input;
use plain_notes::Notes;
use std::alloc::Global;

/// The reply that shows the input, or its claims alone, or that it is nothing that is shown.
pub(crate) fn show_input<S: Source>(
    alloc: Global,
    claims: bool,
    input: &mut S,
    notes: &mut Notes,
) -> Result<Reply, Stop>
    ensures steady { (store : ℕ) → MatchResult result (λ reply. S.read_faults input.new ≡ S.read_faults input.old)
        (λ stop. StopsAs stop (S.read_faults input.old) (S.read_faults input.new) store store) }
    ensures reply { IfOk result (IsShowReply claims (S.left input.old) (S.left input.new)) }
    ensures small { IfOk result (λ reply. reply.status ≤ 2) }
{
    match read_text(alloc, input, notes)? {
        Some(text) => Ok(shown(alloc, claims, text.as_slice(), notes)?),
        None => {
            explain_long_input(alloc, notes);
            Ok(plain(alloc, 2, b"input\n")?)
        }
    }
}

fn shown(alloc: Global, claims: bool, text: &[u8], notes: &mut Notes) -> Result<Reply, Memory>
    ensures reply { IfOk result (λ reply. reply ≡ show_reply claims (Some text.now)) }
    ensures small { IfOk result (λ reply. reply.status ≤ 2) }
{
    match view_by(alloc, claims, text, notes)? {
        Some(view) => Ok(Reply {
            status: status_of(view.refused),
            text: view.text,
            kept: None,
        }),
        None => plain(alloc, 2, b"input\n"),
    }
}

// What is shown of the text.
fn view_by(
    alloc: Global,
    claims: bool,
    text: &[u8],
    notes: &mut Notes,
) -> Result<Option<View>, Memory>
    ensures { IfOk result (λ view. view ≡ view_by claims text.now) }
{
    if claims {
        Ok(Some(show_claims(alloc, text, notes)?))
    } else {
        show(alloc, text, notes)
    }
}

// 0 where it is what it says.
fn status_of(refused: bool) -> u8
    ensures status { result ≡ status_of refused }
    ensures small { result ≤ 1 }
{
    if refused { 1 } else { 0 }
}
