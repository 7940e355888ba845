// The statements of a chain that was found.

ghost use Rattle.std.specs.Prelude.{◌≡◌, IfOk, IsSome, Some};
ghost use Rattle.entity_statement.specs.Signed.{statement_of};
ghost use Rattle.entity_statement.specs.Told.{told};
ghost use Rattle.chain_check.specs.Judging.{texts_of};
ghost use Rattle.fed_resolver.specs.Going.{AreEnds, first_text, last_text};

use chain_check::Tried;
use entity_statement::{SignedStatement, Statement};
use fed_base::{Duplicate, Memory, Seq, Text};
use std::alloc::Global;

// The statements at both ends of a chain.
#[derive(Drop)]
pub(crate) struct Ends {
    // The leaf's configuration.
    pub(crate) leaf: Statement,
    // The trust anchor's configuration.
    pub(crate) anchor: Statement,
}

// The statements of the first text and of the last.
pub(crate) fn read_ends(alloc: Global, chain: &[Tried]) -> Result<Ends, Memory>
    requires first { IsSome (statement_of (first_text chain.now)) }
    requires last { IsSome (statement_of (last_text chain.now)) }
    ensures { IfOk result (AreEnds chain.now) }
{
    let leaf = first_statement(alloc, chain)?;
    let anchor = match last_statement(alloc, chain) {
        Ok(anchor) => anchor,
        Err(memory) => {
            drop(leaf);
            return Err(memory);
        }
    };
    Ok(Ends { leaf, anchor })
}

// The statement of the first text, the leaf's configuration.
pub(crate) fn first_statement(alloc: Global, chain: &[Tried]) -> Result<Statement, Memory>
    requires { IsSome (statement_of (first_text chain.now)) }
    ensures { IfOk result (λ statement. statement_of (first_text chain.now) ≡ Some (told statement)) }
{
    match chain.first() {
        Some(tried) => statement_in(alloc, tried.text.as_slice()),
        None => statement_in(alloc, b""),
    }
}

// A copy of the first text.
pub(crate) fn first_copy(alloc: Global, chain: &[Tried]) -> Result<Text, Memory>
    ensures { IfOk result (λ text. text ≡ first_text chain.now) }
{
    match chain.first() {
        Some(tried) => tried.text.copy(alloc),
        None => Text::of(alloc, b""),
    }
}

// The statement of the last text, the anchor's configuration.
fn last_statement(alloc: Global, chain: &[Tried]) -> Result<Statement, Memory>
    requires { IsSome (statement_of (last_text chain.now)) }
    ensures { IfOk result (λ statement. statement_of (last_text chain.now) ≡ Some (told statement)) }
{
    match chain.last() {
        Some(tried) => statement_in(alloc, tried.text.as_slice()),
        None => statement_in(alloc, b""),
    }
}

// The statement that the text is.
fn statement_in(alloc: Global, text: &[u8]) -> Result<Statement, Memory>
    requires { IsSome (statement_of text.now) }
    ensures { IfOk result (λ statement. statement_of text.now ≡ Some (told statement)) }
{
    match SignedStatement::read(alloc, text)? {
        Some(signed) => Ok(signed.statement),
        None => unreachable!(),
    }
}

// The texts of a chain.
pub(crate) fn texts_of(alloc: Global, chain: Seq<Tried>) -> Result<Seq<Text>, Memory>
    ensures { IfOk result (λ texts. texts ≡ texts_of chain) }
{
    let mut texts = Seq::new(alloc);
    for tried in chain.into_vec() {
        texts.push(tried.text)?;
    }
    Ok(texts)
}
