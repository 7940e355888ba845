// Entity statements.

ghost use Rattle.std.specs.Prelude.{◌≡◌, ◌<◌, IsTrue};
ghost use Rattle.std.specs.List.{list_all};
ghost use Rattle.std.specs.Option.{option_and_then, option_copied};
ghost use Rattle.std.specs.Str.{is_utf8};
ghost use Rattle.std.proofs.Props.{props};
ghost use Rattle.fed_base.specs.Moments.{moment_limit};
ghost use Rattle.fed_json.specs.Metadata.{IsMetadata};
ghost use Rattle.fed_json.specs.Trees.{as_object, text_at as text_in};
ghost use Rattle.chain_limits.specs.Reading.{HoldsUtf8};
ghost use Rattle.entity_statement.specs.Claims.{mark_utf8 as is_mark_utf8, issuers_utf8 as are_issuers_utf8};
ghost use Rattle.entity_statement.specs.Forms.{all_differ};
ghost use Rattle.entity_statement.specs.Use.{federation_entity};

use crate::fault::StatementFault;
use crate::marks::{Issuers, MarkEntry, Owner};
use crate::parts::{copy_common, copy_further};
use crate::reading::{is_statement_type, read_claims};
use chain_limits::Constraints;
use entity_id::EntityId;
use fed_base::{Duplicate, Memory, Seq, Text};
use fed_json::{Json, TreeFault, find, read_tree, text_at};
use jwk_set::JwkSet;
use jws_form::Compact;
use policy_merge::Policy;
use std::alloc::Global;

// How many seconds a statement may be issued after the moment at which it is looked at.
const LEEWAY: u64 = 60;

/// An entity statement (OpenID Federation 1.0 section 3.1). It is a configuration where `iss` and `sub` are equal, and
/// a superior's statement about its subordinate where they differ. A claim that is absent reads as empty.
#[derive(Drop)]
pub struct Statement {
    /// Who says it.
    pub iss: EntityId,
    /// Whom it is about.
    pub sub: EntityId,
    /// Seconds since 1970, below 2^62.
    pub iat: u64,
    /// Seconds since 1970, below 2^62.
    pub exp: u64,
    /// The keys of the subject.
    pub jwks: JwkSet,
    /// The immediate superiors that a configuration names, at most 32, each once.
    pub hints: Seq<EntityId>,
    /// An object from entity type to an object from parameter to a value that isn't null, without `Odd`.
    pub metadata: Json,
    /// Empty in a configuration.
    pub policy: Policy,
    /// None in a configuration.
    pub constraints: Constraints,
    /// Empty in a statement about a subordinate, as the two after it.
    pub marks: Seq<MarkEntry>,
    /// In byte order of the types, as the owners.
    pub issuers: Seq<Issuers>,
    pub owners: Seq<Owner>,
    // Each statement is one that `read` or `of_claims` can give.
    pub ghost issued: { iat < moment_limit },
    pub ghost ends: { exp < moment_limit },
    pub ghost once: { IsTrue (all_differ hints) },
    pub ghost parameters: { IsMetadata metadata },
    pub ghost names: { HoldsUtf8 constraints } by { Prim.hlevel props },
    pub ghost marks_utf8: { IsTrue (list_all is_mark_utf8 marks) },
    pub ghost issuers_utf8: { IsTrue (list_all are_issuers_utf8 issuers) },
    pub ghost owners_utf8: { IsTrue (list_all (λ o. is_utf8 o.mark_type) owners) },
}

impl Statement {
    ghost use Rattle.std.specs.Prelude.{◌≡◌, IfOk, Ok};
    ghost use Rattle.std.specs.Option.{option_copied};
    ghost use Rattle.fed_json.specs.Forms.{IsWellFormed};
    ghost use Rattle.entity_statement.specs.Claims.{Claims};
    ghost use Rattle.entity_statement.specs.Told.{told};
    ghost use Rattle.entity_statement.specs.Grammar.{IsStatement};
    ghost use Rattle.entity_statement.specs.Table.{GivesBy, claims_of, claims_of_tree};
    ghost use Rattle.entity_statement.specs.Use.{current_at, fetch_endpoint_in, status_endpoint_in};

    /// What a compact text claims as an entity statement, or its first fault, in the order of [`StatementFault`]. Claims
    /// of other names are left unread.
    #[tactic(auto, unfolding(crate::specs::Table::claims_of))]
    pub fn read(alloc: Global, compact: &Compact) -> Result<Statement, StatementFault>
        ensures exact { GivesBy told result (claims_of compact.now) }
        ensures found { IfOk result (λ statement. IsStatement compact.now (told statement)) }
        ensures only { (claims : Claims) → IsStatement compact.now claims → GivesBy told result (Ok claims) }
    {
        if !is_statement_type(compact.typ.as_ref()) {
            return Err(StatementFault::Typ);
        }
        match read_tree(alloc, compact.payload.as_slice()) {
            Ok(claims) => Statement::of_claims(alloc, claims),
            Err(TreeFault::Syntax) => Err(StatementFault::Tree),
            Err(TreeFault::Memory) => Err(StatementFault::Memory),
        }
    }

    /// What a tree claims as the payload of an entity statement, or its first fault, in the order of [`StatementFault`]
    /// from `Tree` on. Claims of other names are left unread.
    #[tactic(auto, unfolding(crate::specs::Table::claims_of_tree))]
    pub fn of_claims(alloc: Global, claims: Json) -> Result<Statement, StatementFault>
        requires { IsWellFormed claims }
        ensures exact { GivesBy told result (claims_of_tree claims) }
    {
        match claims {
            Json::Object(members) => read_claims(alloc, members),
            _ => Err(StatementFault::Tree),
        }
    }

    /// Whether the statement was issued at the latest a minute after the moment, and hasn't expired at it. The moment is
    /// in seconds since 1970. It takes no memory.
    pub fn is_current(&self, t: u64) -> bool
        ensures { result ≡ current_at self.now.iat self.now.exp t }
    {
        self.iat <= t.saturating_add(LEEWAY) && t < self.exp
    }

    /// The text `federation_fetch_endpoint` of the type `federation_entity` (section 5.1.1): where statements about the
    /// entity's subordinates are asked for. It takes no memory.
    #[tactic(auto, unfolding(crate::specs::Use::fetch_endpoint_in))]
    pub fn fetch_endpoint(&self) -> Option<&Text>
        ensures { option_copied result ≡ fetch_endpoint_in self.now.metadata }
    {
        federation_text(&self.metadata, b"federation_fetch_endpoint")
    }

    /// The text `federation_trust_mark_status_endpoint` of the type `federation_entity` (section 5.1.1): where the entity
    /// is asked about the trust marks that it issued. It takes no memory.
    #[tactic(auto, unfolding(crate::specs::Use::status_endpoint_in))]
    pub fn status_endpoint(&self) -> Option<&Text>
        ensures { option_copied result ≡ status_endpoint_in self.now.metadata }
    {
        federation_text(&self.metadata, b"federation_trust_mark_status_endpoint")
    }
}

// The text of that name among the parameters of the type `federation_entity`.
fn federation_text<'a>(metadata: &'a Json, name: &[u8]) -> Option<&'a Text>
    ensures { option_copied result ≡ option_and_then (text_in name.now) (option_and_then as_object (federation_entity metadata.now)) }
{
    let Json::Object(types) = metadata else {
        return None;
    };
    match find(types.as_slice(), b"federation_entity") {
        Some(Json::Object(parameters)) => text_at(parameters.as_slice(), name),
        _ => None,
    }
}

impl Duplicate for Statement {
    fn copy(&self, alloc: Global) -> Result<Self, Memory> {
        let metadata = self.metadata.copy(alloc)?;
        let common = copy_common(alloc, self)?;
        match copy_further(alloc, self) {
            Ok(further) => Ok(Statement {
                iss: common.iss,
                sub: common.sub,
                iat: common.iat,
                exp: common.exp,
                jwks: common.jwks,
                hints: further.hints,
                metadata,
                policy: further.rules.policy,
                constraints: further.rules.constraints,
                marks: further.marks.marks,
                issuers: further.marks.issuers,
                owners: further.marks.owners,
            }),
            Err(Memory) => {
                drop(common);
                Err(Memory)
            },
        }
    }
}
