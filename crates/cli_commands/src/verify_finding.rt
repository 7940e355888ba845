// Whether a text is a valid entity configuration under a public key.

ghost use Rattle.std.specs.Prelude.{◌≡◌, ◌↔◌, IfOk, IsTrue};
ghost use Rattle.slh_dsa.specs.Verifying.{Verifies};
ghost use Rattle.cli_commands.specs.Findings.{IsFinding, status_of, line_of};

use entity_id::EntityId;
use entity_statement::{SignedStatement, Statement};
use fed_ports::{Memory, OpensLedgers, Plain, Steps, Text};
use jws_form::Compact;
use slh_dsa::verify;
use std::alloc::Global;

/// What is found of a text under a public key.
#[derive(Drop)]
pub enum Finding {
    /// It is the configuration of this entity, and its signature verifies by the algorithm that its header names.
    Valid(EntityId),
    /// It isn't an entity statement.
    Form,
    /// Its issuer isn't its subject.
    Names,
    /// Its signature doesn't verify.
    Signature,
}

/// What is found of the text.
pub fn examine<R: OpensLedgers>(
    rt: &R,
    alloc: Global,
    key: &[u8; 32],
    text: &[u8],
) -> Result<Finding, Memory>
    ensures { IfOk result (IsFinding key.now text.now) }
{
    let Some(signed) = SignedStatement::read(alloc, text)? else {
        return Ok(Finding::Form);
    };
    if !is_own(&signed.statement) {
        drop(signed);
        return Ok(Finding::Names);
    }
    if has_signature(rt, key, &signed.compact) {
        Ok(Finding::Valid(subject(signed)))
    } else {
        drop(signed);
        Ok(Finding::Signature)
    }
}

// Whether the signature verifies under the key, by the algorithm that the header names.
fn has_signature<R: OpensLedgers>(rt: &R, key: &[u8; 32], compact: &Compact) -> bool
    ensures { IsTrue result ↔ Verifies compact.now.alg key.now compact.now.signed compact.now.signature }
{
    let mut steps = Steps {
        ledger: Plain::new(rt),
    };
    let signed = compact.signed.as_slice();
    let signature = compact.signature.as_slice();
    verify(compact.alg, key, signed, signature, &mut steps)
}

// Whom the statement is about.
fn subject(signed: SignedStatement) -> EntityId
    ensures { result ≡ signed.statement.sub }
{
    let statement = signed.statement;
    statement.sub
}

// Whether the statement is its issuer's about itself.
fn is_own(statement: &Statement) -> bool
    ensures { IsTrue result ↔ (statement.now.iss ≡ statement.now.sub) }
{
    statement.iss.text() == statement.sub.text()
}

impl Finding {
    ghost use Rattle.std.specs.Prelude.{◌≡◌, IfOk};
    ghost use Rattle.cli_commands.specs.Findings.{status_of, line_of};

    /// The exit status.
    pub fn status(&self) -> u8
        ensures { result ≡ status_of self.now }
    {
        match self {
            Finding::Valid(_) => 0,
            Finding::Form | Finding::Names | Finding::Signature => 1,
        }
    }

    /// The line that says it, with its line end.
    pub fn line(&self, alloc: Global) -> Result<Text, Memory>
        ensures { IfOk result (λ line. line ≡ line_of self.now) }
    {
        match self {
            Finding::Valid(sub) => {
                let mut line = Text::of(alloc, b"valid ")?;
                line.append(sub.text())?;
                line.push(b'\n')?;
                Ok(line)
            }
            Finding::Form => Text::of(alloc, b"refused Form\n"),
            Finding::Names => Text::of(alloc, b"refused Names\n"),
            Finding::Signature => Text::of(alloc, b"refused Signature\n"),
        }
    }
}
