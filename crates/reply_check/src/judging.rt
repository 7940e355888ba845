// By what the marks of a reply are judged.

ghost use Rattle.std.specs.Prelude.{◌≡◌, IfOk, IsSome, Some};
ghost use Rattle.entity_statement.specs.Signed.{statement_of};
ghost use Rattle.entity_statement.specs.Told.{told};
ghost use Rattle.reply_check.specs.Marks.{first_of, last_of};
ghost use Rattle.reply_check.specs.Stages.{CanEnd, IsJudging};

use entity_statement::{SignedStatement, Statement};
use fed_base::{Memory, Text};
use resolve_reply::Said;
use std::alloc::Global;

// By what the marks of a reply are judged.
#[derive(Drop)]
pub(crate) struct Judging {
    // The configurations of the leaf and of the trust anchor.
    pub(crate) leaf: Statement,
    pub(crate) anchor: Statement,
    // The moment of the reply, and its end.
    pub(crate) moment: u64,
    pub(crate) end: u64,
}

// The same of what a reply says.
pub(crate) fn judging_of(alloc: Global, said: &Said) -> Result<Judging, Memory>
    requires { CanEnd said.now.chain }
    ensures { IfOk result (IsJudging said.now) }
{
    let leaf = first_statement(alloc, said.chain.as_slice())?;
    match last_statement(alloc, said.chain.as_slice()) {
        Ok(anchor) => Ok(Judging {
            leaf,
            anchor,
            moment: said.iat,
            end: said.exp,
        }),
        Err(memory) => {
            drop(leaf);
            Err(memory)
        }
    }
}

// The statement of the first text.
fn first_statement(alloc: Global, chain: &[Text]) -> Result<Statement, Memory>
    requires { IsSome (first_of chain.now) }
    ensures { IfOk result (λ statement. first_of chain.now ≡ Some (told statement)) }
{
    match chain.first() {
        Some(text) => statement_in(alloc, text.as_slice()),
        None => unreachable!(),
    }
}

// The statement of the last text.
fn last_statement(alloc: Global, chain: &[Text]) -> Result<Statement, Memory>
    requires { IsSome (last_of chain.now) }
    ensures { IfOk result (λ statement. last_of chain.now ≡ Some (told statement)) }
{
    match chain.last() {
        Some(text) => statement_in(alloc, text.as_slice()),
        None => unreachable!(),
    }
}

// The statement that the text is.
fn statement_in(alloc: Global, text: &[u8]) -> Result<Statement, Memory>
    requires { IsSome (statement_of text.now) }
    ensures { IfOk result (λ statement. statement_of text.now ≡ Some (told statement)) }
{
    match SignedStatement::read(alloc, text)? {
        Some(signed) => Ok(signed.statement),
        None => unreachable!(),
    }
}
