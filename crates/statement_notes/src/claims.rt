// Claims that make no statement.

use crate::keys::explain_set_fault;
use entity_statement::{Statement, StatementFault};
use fed_json::{Json, TreeFault, find, object_members, read_tree};
use jwk_set::SetFault;
use plain_notes::{Notes, Sentence, is_like};
use std::alloc::Global;

/// Says why claims, with this JSON and this fault, aren't those of an entity statement.
pub fn explain_claims(alloc: Global, payload: &[u8], fault: &StatementFault, notes: &mut Notes) {
    explain_fault(
        alloc,
        Sentence::of(alloc, b"standard input: "),
        payload,
        fault,
        notes,
    );
}

/// Says behind `about` why the payload isn't that of an entity statement.
pub(crate) fn explain_payload(alloc: Global, about: Sentence, payload: &[u8], notes: &mut Notes) {
    match read_tree(alloc, payload) {
        Ok(tree) => match Statement::of_claims(alloc, tree) {
            Ok(statement) => drop(statement),
            Err(fault) => explain_fault(alloc, about, payload, &fault, notes),
        },
        Err(TreeFault::Syntax) => notes.say(about.and(b"the claims aren't JSON")),
        Err(TreeFault::Memory) => {},
    }
}

fn explain_fault(
    alloc: Global,
    about: Sentence,
    payload: &[u8],
    fault: &StatementFault,
    notes: &mut Notes,
) {
    match fault {
        StatementFault::Keys(fault) => explain_keys(alloc, about, payload, *fault, notes),
        StatementFault::Memory => {},
        StatementFault::Missing(_) if is_mark(alloc, payload) => {
            notes.say(fault_sentence(about, fault).and(
                b"; these are claims of a trust mark, whose --typ is trust-mark+jwt",
            ));
        }
        _ => notes.say(fault_sentence(about, fault)),
    }
}

// Whether claims have the type of a trust mark (OpenID Federation 1.0 section 7.1), which no statement has.
fn is_mark(alloc: Global, payload: &[u8]) -> bool {
    match read_tree(alloc, payload) {
        Ok(claims) => find(object_members(&claims), b"trust_mark_type").is_some(),
        Err(_) => false,
    }
}

fn explain_keys(
    alloc: Global,
    about: Sentence,
    payload: &[u8],
    fault: SetFault,
    notes: &mut Notes,
) {
    if let Ok(claims) = read_tree(alloc, payload) {
        explain_keys_in(alloc, about, &claims, fault, notes);
    }
}

fn explain_keys_in(
    alloc: Global,
    about: Sentence,
    claims: &Json,
    fault: SetFault,
    notes: &mut Notes,
) {
    if let Some(set) = find(object_members(claims), b"jwks") {
        explain_set_fault(alloc, about.and(b"the claim jwks"), set, fault, notes);
    }
}

fn fault_sentence(about: Sentence, fault: &StatementFault) -> Sentence {
    match fault {
        StatementFault::Typ => about.and(b"the header's typ isn't entity-statement+jwt"),
        StatementFault::Missing(claim) => {
            about
                .and(b"the claim ")
                .and(claim.as_slice())
                .and(b" is missing")
        }
        StatementFault::Shape(claim) => about
            .and(b"the claim ")
            .and(claim.as_slice())
            .and(b" isn't ")
            .and(form_of(claim.as_slice()))
            .and(b" (Shape)"),
        StatementFault::Misplaced(claim) => about
            .and(b"the claim ")
            .and(claim.as_slice())
            .and(place_of(claim.as_slice()))
            .and(b" (Misplaced)"),
        StatementFault::Critical(name) => {
            about
                .and(name.as_slice())
                .and(b" must be understood, and fed doesn't know it (Critical)")
        }
        StatementFault::Tree | StatementFault::Keys(_) | StatementFault::Memory => {
            about.and(b"the claims aren't a JSON object")
        }
    }
}

// The form of a claim.
fn form_of(claim: &[u8]) -> &'static [u8] {
    match CLAIMS.iter().find(|known| known.0.as_bytes() == claim) {
        Some(known) => known.1.as_bytes(),
        None => b"of its form",
    }
}

// Which statements a claim is for.
fn place_of(claim: &[u8]) -> &'static [u8] {
    if claim == b"authority_hints".as_slice() {
        b" is for configurations, in which iss is sub"
    } else {
        b" is for statements about subordinates, in which iss isn't sub"
    }
}

/// The name that is meant by a member that looks like a claim and isn't one.
pub(crate) fn meant_by(name: &[u8]) -> Option<&'static str> {
    let known = CLAIMS.iter().any(|claim| claim.0.as_bytes() == name);
    if known {
        return None;
    }
    let like = CLAIMS
        .iter()
        .find(|claim| is_like(name, claim.0.as_bytes()));
    like.map(|claim| claim.0)
}

// The claims of a statement with the form of each.
const CLAIMS: [(&str, &str); 14] = [
    ("crit", "a list of one text at least"),
    (
        "iss",
        "an identifier: a URL of https or http without query, fragment and user",
    ),
    (
        "sub",
        "an identifier: a URL of https or http without query, fragment and user",
    ),
    (
        "iat",
        "a whole number from 0 to 2^62 - 1, in seconds since 1970",
    ),
    (
        "exp",
        "a whole number from 0 to 2^62 - 1, in seconds since 1970",
    ),
    ("jwks", "of its form"),
    ("authority_hints", "a list of 1 to 32 identifiers"),
    (
        "metadata",
        "an object of objects, without null as a parameter and with whole numbers alone",
    ),
    ("metadata_policy", "a policy; see docs/POLICY.md"),
    ("metadata_policy_crit", "a list of texts"),
    (
        "constraints",
        "an object of constraints; see docs/STATEMENTS.md",
    ),
    (
        "trust_marks",
        "a list of objects with the texts trust_mark_type and trust_mark",
    ),
    (
        "trust_mark_issuers",
        "an object from type to a list of texts",
    ),
    (
        "trust_mark_owners",
        "an object from type to an object with sub and jwks",
    ),
];

/// Whether the tree is of one of JSON's kinds but an object, and which.
pub fn kind_of(tree: &Json) -> &'static [u8] {
    match tree {
        Json::Null => b"null",
        Json::Bool(_) => b"a boolean",
        Json::Int(_) | Json::Odd => b"a number",
        Json::Text(_) => b"a text",
        Json::List(_) => b"a list",
        Json::Object(_) => b"an object",
    }
}
