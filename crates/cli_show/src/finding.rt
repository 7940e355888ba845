// What a signed text is.

ghost use Rattle.std.specs.Prelude.{◌≡◌, ◌≢◌, IfOk, Ok, Some};
ghost use Rattle.fed_json.specs.Reading.{tree_in};
ghost use Rattle.jws_form.specs.Splitting.{long_splitting};
ghost use Rattle.entity_statement.specs.Table.{claims_of};
ghost use Rattle.trust_mark.specs.Claims.{delegation_claims, has_type, mark_claims, status_claims};
ghost use Rattle.trust_mark.specs.declared.fault.MarkFault.TheVariants.{Memory as WantOfMemory};
ghost use Rattle.cli_show.specs.Faults.{mark_reason};
ghost use Rattle.cli_show.specs.Findings.{about, compact_found, delegation_found, delegation_words, identifier_at, long_found, mark_found, mark_words, other_found, refused, registration_found, registration_words, statement_found, status_found, status_words, text_found, too_long};

use crate::faults::{form_reason, mark_reason, statement_reason};
use crate::lines::{append_plain, append_quoted, good, refused};
use crate::view::View;
use entity_id::EntityId;
use entity_statement::{STATEMENT_TYPE, Statement, StatementFault};
use fed_base::{Memory, Text};
use fed_json::{Json, TreeFault, object_members, read_tree, text_at};
use jws_form::{Compact, FormFault, split, split_long};
use std::alloc::Global;
use trust_mark::{
    DELEGATION_TYPE, MARK_TYPE, Mark, MarkFault, STATUS_TYPE, StatusAnswer, read_delegation,
};

// How many bytes a statement, a mark or a delegation has at most.
const MAX_BYTES: usize = 262_144;

// The type of a resolver's reply (OpenID Federation 1.0 section 8.3.2).
const REPLY_TYPE: &[u8] = b"resolve-response+jwt";

// The type of a registration (OpenID Federation 1.0 section 12.2.3).
const REGISTRATION_TYPE: &[u8] = b"explicit-registration-response+jwt";

/// What the text is, or the first reason why it isn't.
#[tactic(auto, unfolding(crate::specs::Findings::text_found))]
pub(crate) fn text_found(alloc: Global, text: &[u8]) -> Result<View, Memory>
    ensures { IfOk result (λ view. view ≡ text_found text.now) }
{
    if text.len() > MAX_BYTES {
        return long_found(alloc, text);
    }
    match split(alloc, text) {
        Ok(compact) => {
            let found = compact_found(alloc, &compact);
            drop(compact);
            found
        }
        Err(FormFault::Memory) => Err(Memory),
        Err(fault) => {
            let reason = form_reason(alloc, fault)?;
            refused(alloc, reason.as_slice())
        }
    }
}

// What a text is that is longer than statements and marks may be.
fn long_found(alloc: Global, text: &[u8]) -> Result<View, Memory>
    ensures { IfOk result (λ view. view ≡ long_found (long_splitting text.now)) }
{
    match split_long(alloc, text) {
        Ok(compact) => {
            let found = reply_found(alloc, &compact);
            drop(compact);
            found
        }
        Err(FormFault::Memory) => Err(Memory),
        Err(_) => too_long(alloc),
    }
}

// The same of one in compact form.
fn reply_found(alloc: Global, compact: &Compact) -> Result<View, Memory>
    ensures { IfOk result (λ view. view ≡ long_found (Ok compact.now)) }
{
    if has_type(compact, REPLY_TYPE) {
        other_found(alloc, compact)
    } else if has_type(compact, REGISTRATION_TYPE) {
        registration_found(alloc, compact)
    } else {
        too_long(alloc)
    }
}

fn too_long(alloc: Global) -> Result<View, Memory>
    ensures { IfOk result (λ view. view ≡ too_long) }
{
    let reason = form_reason(alloc, FormFault::TooLong)?;
    refused(alloc, reason.as_slice())
}

// What a text in compact form is, by its type.
#[tactic(auto, unfolding(crate::specs::Findings::compact_found))]
fn compact_found(alloc: Global, compact: &Compact) -> Result<View, Memory>
    ensures { IfOk result (λ view. view ≡ compact_found compact.now) }
{
    if has_type(compact, STATEMENT_TYPE) {
        statement_found(alloc, compact)
    } else if has_type(compact, MARK_TYPE) {
        mark_found(alloc, compact)
    } else if has_type(compact, DELEGATION_TYPE) {
        delegation_found(alloc, compact)
    } else if has_type(compact, STATUS_TYPE) {
        status_found(alloc, compact)
    } else if has_type(compact, REGISTRATION_TYPE) {
        registration_found(alloc, compact)
    } else {
        other_found(alloc, compact)
    }
}

fn has_type(compact: &Compact, name: &[u8]) -> bool
    ensures { result ≡ has_type name.now compact.now.typ }
{
    match &compact.typ {
        Some(typ) => typ.as_slice() == name,
        None => false,
    }
}

fn statement_found(alloc: Global, compact: &Compact) -> Result<View, Memory>
    ensures { IfOk result (λ view. view ≡ statement_found (claims_of compact.now)) }
{
    match Statement::read(alloc, compact) {
        Ok(statement) => {
            let words = about(alloc, &statement);
            drop(statement);
            good(words?)
        }
        Err(StatementFault::Memory) => Err(Memory),
        Err(fault) => {
            let reason = statement_reason(alloc, &fault)?;
            refused(alloc, reason.as_slice())
        }
    }
}

// Whether it is a configuration, and whose statement it is.
fn about(alloc: Global, statement: &Statement) -> Result<Text, Memory>
    ensures { IfOk result (λ words. words ≡ about statement.now.iss statement.now.sub) }
{
    let (iss, sub) = (statement.iss.text(), statement.sub.text());
    let mut words = Text::new(alloc);
    if iss == sub {
        append_plain(&mut words, b"configuration of ", sub)?;
        return Ok(words);
    }
    append_plain(&mut words, b"statement of ", iss)?;
    append_plain(&mut words, b" about ", sub)?;
    Ok(words)
}

fn mark_found(alloc: Global, compact: &Compact) -> Result<View, Memory>
    ensures { IfOk result (λ view. view ≡ mark_found (mark_claims compact.now)) }
{
    match Mark::read(alloc, compact) {
        Ok(mark) => {
            let words = mark_words(alloc, &mark);
            drop(mark);
            good(words?)
        }
        Err(fault) => mark_refused(alloc, &fault),
    }
}

fn mark_words(alloc: Global, mark: &Mark) -> Result<Text, Memory>
    ensures { IfOk result (λ words. words ≡ mark_words mark.now) }
{
    let mut words = Text::new(alloc);
    append_quoted(alloc, &mut words, b"trust mark ", mark.mark_type.as_slice())?;
    append_plain(&mut words, b" for ", mark.sub.text())?;
    append_plain(&mut words, b" by ", mark.iss.text())?;
    Ok(words)
}

fn delegation_found(alloc: Global, compact: &Compact) -> Result<View, Memory>
    ensures { IfOk result (λ view. view ≡ delegation_found (delegation_claims compact.now)) }
{
    match read_delegation(alloc, compact) {
        Ok(mark) => {
            let words = delegation_words(alloc, &mark);
            drop(mark);
            good(words?)
        }
        Err(fault) => mark_refused(alloc, &fault),
    }
}

fn delegation_words(alloc: Global, mark: &Mark) -> Result<Text, Memory>
    ensures { IfOk result (λ words. words ≡ delegation_words mark.now) }
{
    let mut words = Text::new(alloc);
    append_quoted(
        alloc,
        &mut words,
        b"delegation of ",
        mark.mark_type.as_slice(),
    )?;
    append_plain(&mut words, b" to ", mark.sub.text())?;
    append_plain(&mut words, b" by ", mark.iss.text())?;
    Ok(words)
}

fn status_found(alloc: Global, compact: &Compact) -> Result<View, Memory>
    ensures { IfOk result (λ view. view ≡ status_found (status_claims compact.now)) }
{
    match StatusAnswer::read(alloc, compact) {
        Ok(answer) => {
            let words = status_words(alloc, &answer);
            drop(answer);
            good(words?)
        }
        Err(fault) => mark_refused(alloc, &fault),
    }
}

fn status_words(alloc: Global, answer: &StatusAnswer) -> Result<Text, Memory>
    ensures { IfOk result (λ words. words ≡ status_words answer.now) }
{
    let mut words = Text::new(alloc);
    append_plain(&mut words, b"trust mark ", answer.status.word())?;
    append_plain(&mut words, b" by ", answer.iss.text())?;
    Ok(words)
}

fn registration_found(alloc: Global, compact: &Compact) -> Result<View, Memory>
    ensures { IfOk result (λ view. view ≡ registration_found compact.now.typ (tree_in compact.now.payload)) }
{
    match read_tree(alloc, compact.payload.as_slice()) {
        Ok(tree) => {
            let found = registration_in(alloc, compact, &tree);
            drop(tree);
            found
        }
        Err(TreeFault::Syntax) => other_found(alloc, compact),
        Err(TreeFault::Memory) => Err(Memory),
    }
}

// Whom the claims register, and who does.
fn registration_in(alloc: Global, compact: &Compact, claims: &Json) -> Result<View, Memory>
    ensures { IfOk result (λ view. view ≡ registration_found compact.now.typ (Some claims.now)) }
{
    let sub = identifier_at(alloc, claims, b"sub")?;
    let iss = identifier_at(alloc, claims, b"iss")?;
    match (sub, iss) {
        (Some(sub), Some(iss)) => good(registration_words(alloc, &sub, &iss)?),
        _ => other_found(alloc, compact),
    }
}

fn identifier_at(alloc: Global, claims: &Json, name: &[u8]) -> Result<Option<EntityId>, Memory>
    ensures { IfOk result (λ id. id ≡ identifier_at name.now claims.now) }
{
    match text_at(object_members(claims), name) {
        Some(text) => EntityId::of(alloc, text.as_slice()),
        None => Ok(None),
    }
}

fn registration_words(alloc: Global, sub: &EntityId, iss: &EntityId) -> Result<Text, Memory>
    ensures { IfOk result (λ words. words ≡ registration_words sub.now iss.now) }
{
    let mut words = Text::new(alloc);
    append_plain(&mut words, b"registration of ", sub.text())?;
    append_plain(&mut words, b" by ", iss.text())?;
    Ok(words)
}

// Why claims aren't those of a mark, unless memory was wanting.
fn mark_refused(alloc: Global, fault: &MarkFault) -> Result<View, Memory>
    ensures refused { IfOk result (λ view. view ≡ refused (mark_reason fault.now)) }
    ensures other { IfOk result (λ view. fault.now ≢ WantOfMemory) }
{
    let reason = mark_reason(alloc, fault)?;
    refused(alloc, reason.as_slice())
}

fn other_found(alloc: Global, compact: &Compact) -> Result<View, Memory>
    ensures { IfOk result (λ view. view ≡ other_found compact.now.typ) }
{
    match &compact.typ {
        Some(typ) => {
            let mut words = Text::new(alloc);
            append_quoted(alloc, &mut words, b"signed text of type ", typ.as_slice())?;
            good(words)
        }
        None => good(Text::of(alloc, b"signed text without a type")?),
    }
}
