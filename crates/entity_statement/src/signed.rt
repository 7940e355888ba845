// A statement with the text that it was read from.

ghost use Rattle.std.specs.Prelude.{◌≡◌, ℕ, List, IfOk};
ghost use Rattle.jws_form.specs.Compact.{IsCompact};
ghost use Rattle.jws_form.specs.Splitting.{Gives, splitting};
ghost use Rattle.entity_statement.specs.Signed.{IsReading};

use crate::fault::StatementFault;
use crate::statement::Statement;
use fed_base::{Duplicate, Memory, Text};
use jws_form::{Compact, FormFault, split, split_text};
use std::alloc::Global;

/// An entity statement (OpenID Federation 1.0 section 3) and the parts of the compact text that it was read from.
#[derive(Drop)]
pub struct SignedStatement {
    pub compact: Compact,
    pub statement: Statement,
}

impl SignedStatement {
    /// The statement that the text is, and `None` where it is none. Its signature isn't looked at.
    pub fn read(alloc: Global, text: &[u8]) -> Result<Option<SignedStatement>, Memory>
        ensures { IfOk result (IsReading text.now) }
    {
        read_parts(alloc, split(alloc, text))
    }

    /// The same of a text that shares its bytes ([`Text::shared`]): the parts share them too.
    pub fn read_text(alloc: Global, text: &Text) -> Result<Option<SignedStatement>, Memory>
        ensures { IfOk result (IsReading text.now) }
    {
        read_parts(alloc, split_text(alloc, text))
    }
}

// The statement that the parts of a text are.
#[tactic(auto, unfolding(crate::specs::Signed::statement_of))]
fn read_parts(
    alloc: Global,
    parts: Result<Compact, FormFault>,
) -> Result<Option<SignedStatement>, Memory>
    ensures { (text : List ℕ) → Gives parts (splitting text) → IfOk parts (IsCompact text) → IfOk result (IsReading text) }
{
    let compact = match parts {
        Ok(compact) => compact,
        Err(FormFault::Memory) => return Err(Memory),
        Err(_) => return Ok(None),
    };
    match Statement::read(alloc, &compact) {
        Ok(statement) => Ok(Some(SignedStatement { compact, statement })),
        Err(fault) => {
            drop(compact);
            match fault {
                StatementFault::Memory => Err(Memory),
                _ => Ok(None),
            }
        }
    }
}

impl Duplicate for SignedStatement {
    fn copy(&self, alloc: Global) -> Result<Self, Memory> {
        let compact = self.compact.copy(alloc)?;
        match self.statement.copy(alloc) {
            Ok(statement) => Ok(SignedStatement { compact, statement }),
            Err(Memory) => {
                drop(compact);
                Err(Memory)
            },
        }
    }
}
