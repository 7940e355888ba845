// What is read of a mark and of its issuer's configuration.

ghost use Rattle.std.specs.Prelude.{◌≡◌, IfOk, IsSome};
ghost use Rattle.entity_statement.specs.Signed.{statement_of};
ghost use Rattle.entity_statement.specs.Use.{status_endpoint_in};
ghost use Rattle.trust_mark.specs.Marks.{mark_of};
ghost use Rattle.mark_status.specs.Stages.{IsConfigured, IsNamed};

use entity_id::EntityId;
use entity_statement::{SignedStatement, Statement};
use fed_base::{Duplicate, Memory, Text};
use jwk_set::JwkSet;
use std::alloc::Global;
use trust_mark::mark_of;

/// Who issued a mark, and when it ends.
#[derive(Drop)]
pub(crate) struct Named {
    pub(crate) iss: EntityId,
    pub(crate) end: Option<u64>,
}

/// Where an issuer is asked about its marks, and the keys by which it answers.
#[derive(Drop)]
pub(crate) struct Configured {
    pub(crate) endpoint: Option<Text>,
    pub(crate) keys: JwkSet,
}

impl Named {
    /// The issuer and the end of the mark that the text is.
    pub(crate) fn of(alloc: Global, text: &[u8]) -> Result<Named, Memory>
        requires { IsSome (mark_of text.now) }
        ensures { IfOk result (IsNamed text.now) }
    {
        match mark_of(alloc, text)? {
            Some(mark) => Ok(Named {
                iss: mark.iss,
                end: mark.exp,
            }),
            None => unreachable!(),
        }
    }
}

impl Configured {
    /// The endpoint and the keys in the configuration that the text is.
    pub(crate) fn of(alloc: Global, text: &[u8]) -> Result<Configured, Memory>
        requires { IsSome (statement_of text.now) }
        ensures { IfOk result (IsConfigured text.now) }
    {
        match SignedStatement::read(alloc, text)? {
            Some(signed) => {
                let configured = configured_by(alloc, &signed.statement);
                // as one value, so that the proof doesn't follow each of its parts
                drop(signed);
                configured
            }
            None => unreachable!(),
        }
    }
}

// The endpoint and the keys that the configuration says.
fn configured_by(alloc: Global, statement: &Statement) -> Result<Configured, Memory>
    ensures endpoint { IfOk result (λ c. c.endpoint ≡ status_endpoint_in statement.now.metadata) }
    ensures keys { IfOk result (λ c. c.keys ≡ statement.now.jwks) }
{
    let endpoint = match statement.status_endpoint() {
        Some(url) => Some(url.copy(alloc)?),
        None => None,
    };
    let keys = statement.jwks.copy(alloc)?;
    Ok(Configured { endpoint, keys })
}
