// The table of claims, row by row.

ghost use Rattle.std.specs.Prelude.{◌≡◌, codes, unwrap_or, IsTrue};
ghost use Rattle.std.specs.Option.{option_copied};
ghost use Rattle.fed_json.specs.Forms.{members_well_formed};
ghost use Rattle.fed_json.specs.Trees.{find as value_at};
ghost use Rattle.entity_statement.specs.Claims.{no_metadata};
ghost use Rattle.entity_statement.specs.Told.{told};
ghost use Rattle.entity_statement.specs.Table.{GivesBy, claims_in, is_statement_type};

use crate::fault::StatementFault;
use crate::parts::{read_common, read_further};
use crate::statement::Statement;
use fed_base::{Seq, Text};
use fed_json::{Json, Member};
use std::alloc::Global;

/// The `typ` of the header of an entity statement (OpenID Federation 1.0 section 3.1).
pub const STATEMENT_TYPE: &[u8] = b"entity-statement+jwt";

/// Whether the header's type is that of an entity statement.
pub(crate) fn is_statement_type(typ: Option<&Text>) -> bool
    ensures { result ≡ is_statement_type (option_copied typ.entry) }
{
    typ.is_some_and(|typ| typ.as_slice() == STATEMENT_TYPE)
}

/// What the members of the payload claim.
#[tactic(auto, unfolding(crate::specs::Table::claims_in))]
pub(crate) fn read_claims(alloc: Global, members: Seq<Member>) -> Result<Statement, StatementFault>
    requires { IsTrue (members_well_formed members) }
    ensures { GivesBy told result (claims_in members) }
{
    let common = read_common(alloc, members.as_slice())?;
    let own = common.iss == common.sub;
    match read_further(alloc, members.as_slice(), own) {
        Ok(further) => Ok(Statement {
            iss: common.iss,
            sub: common.sub,
            iat: common.iat,
            exp: common.exp,
            jwks: common.jwks,
            hints: further.hints,
            metadata: take_metadata(alloc, members),
            policy: further.rules.policy,
            constraints: further.rules.constraints,
            marks: further.marks.marks,
            issuers: further.marks.issuers,
            owners: further.marks.owners,
        }),
        Err(fault) => {
            drop(common);
            Err(fault)
        },
    }
}

// The claim `metadata`, moved out of the others, and an empty object where it is absent.
fn take_metadata(alloc: Global, claims: Seq<Member>) -> Json
    ensures { result ≡ unwrap_or (value_at (codes "metadata") claims) no_metadata }
{
    for claim in claims.into_vec() {
        if claim.name.as_slice() == b"metadata".as_slice() {
            return claim.value;
        }
    }
    Json::Object(Seq::new(alloc))
}
