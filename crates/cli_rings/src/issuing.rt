// The answer of `issue`.

ghost use Rattle.std.specs.Prelude.{◌≡◌, IfOk, IsSome, Result, is_ok, is_some};
ghost use Rattle.fed_json.specs.Forms.{IsWellFormed};
ghost use Rattle.fed_json.specs.Reading.{Reads, tree_in};
ghost use Rattle.fed_json.specs.Trees.{as_object};
ghost use Rattle.entity_statement.specs.Table.{claims_of_tree};
ghost use Rattle.trust_mark.specs.Claims.{Gives};
ghost use Rattle.trust_mark.specs.declared.fault.MarkFault.{MarkFault as Fault};
ghost use Rattle.trust_mark.specs.declared.mark.Mark.{Mark as Claimed};
ghost use Rattle.cli_rings.specs.Issues.{claims_read, issue_reply, of_object};
ghost use Rattle.cli_rings.specs.SealedLines.{IsSealedReply};

use crate::reply::{Reply, plain};
use cli_words::TextType;
use entity_statement::{Statement, StatementFault};
use fed_json::{Json, TreeFault, is_whole, read_tree, write_tree};
use fed_ports::{Memory, Text};
use file_notes::{
    explain_claims, explain_length, explain_mark_claims, explain_numbers, explain_unless_object,
    warn_of_claims, warn_of_statement,
};
use jwk_set::thumbprint;
use plain_notes::Notes;
use sealed::seal_signed;
use sign_many::Workers;
use slh_dsa::KeyPair;
use std::alloc::Global;
use std::thread::Threads;
use trust_mark::{Mark, MarkFault, delegation_of_claims};

// The most bytes that claims may have as compact JSON.
const MOST_CLAIMS: usize = 179_000;

/// The text of that type that the signer seals the claims in the input as, on its own line, with a signature by so many workers, which are
/// taken as 1 where they are 0 and as 16 where they are more. A text of at most 262,144 bytes is sealed by each set in which the signer's
/// key has its thumbprint.
#[tactic(auto, unfolding(crate::specs::Issues::issue_reply, crate::specs::Issues::of_tree))]
pub fn issue<R: Threads + Sync>(
    rt: &R,
    alloc: Global,
    signer: &KeyPair,
    typ: TextType,
    workers: u64,
    input: Text,
    notes: &mut Notes,
) -> Result<Reply, Memory>
    ensures reply { IfOk result (λ reply. reply ≡ issue_reply signer.now typ input) }
    ensures sealed { IfOk result (IsSealedReply signer.now) }
{
    let tree = match read_input(alloc, input, notes) {
        Ok(tree) => tree,
        Err(TreeFault::Memory) => return Err(Memory),
        Err(TreeFault::Syntax) => return plain(alloc, 2, b"input\n"),
    };
    if is_object(&tree) {
        seal_claims(rt, alloc, signer, typ, workers, tree, notes)
    } else {
        plain(alloc, 2, b"input\n")
    }
}

// The tree of the input, whose memory is free after it.
fn read_input(alloc: Global, input: Text, notes: &mut Notes) -> Result<Json, TreeFault>
    ensures tree { Reads result (tree_in input) }
    ensures well_formed { IfOk result IsWellFormed }
{
    let read = read_tree(alloc, input.as_slice());
    explain_unless_object(alloc, input.as_slice(), &read, notes);
    read
}

fn is_object(tree: &Json) -> bool
    ensures { result ≡ is_some (as_object tree.now) }
{
    matches!(tree, Json::Object(_))
}

// The same of claims that are an object.
#[tactic(auto, unfolding(crate::specs::Issues::of_object, crate::specs::Issues::sealed_reply))]
fn seal_claims<R: Threads + Sync>(
    rt: &R,
    alloc: Global,
    signer: &KeyPair,
    typ: TextType,
    workers: u64,
    tree: Json,
    notes: &mut Notes,
) -> Result<Reply, Memory>
    requires object { IsSome (as_object tree) }
    requires formed { IsWellFormed tree }
    ensures reply { IfOk result (λ reply. reply ≡ of_object signer.now typ tree) }
    ensures sealed { IfOk result (IsSealedReply signer.now) }
{
    if !is_whole(&tree) {
        explain_numbers(alloc, &tree, notes);
        drop(tree);
        return plain(alloc, 1, b"refused Form\n");
    }
    let payload = write_tree(alloc, &tree)?;
    if payload.len() > MOST_CLAIMS {
        drop(tree);
        explain_length(alloc, payload.len(), notes);
        return plain(alloc, 1, b"refused TooLong\n");
    }
    warn_of_sealing(alloc, signer, typ, &tree, notes);
    if !are_read(alloc, typ, tree, payload.as_slice(), notes)? {
        return plain(alloc, 1, b"refused Form\n");
    }
    let typ = typ.name(alloc)?;
    let by = Workers { rt, count: workers };
    let mut text = seal_signed(alloc, signer, &typ, payload.as_slice(), &by)?;
    text.push(b'\n')?;
    Ok(Reply {
        status: 0,
        text,
        kept: None,
    })
}

// Says what looks wrong in claims that the signer seals as a text of that type.
fn warn_of_sealing(
    alloc: Global,
    signer: &KeyPair,
    typ: TextType,
    claims: &Json,
    notes: &mut Notes,
) {
    warn_of_claims(alloc, claims, notes);
    match typ {
        TextType::Statement => if let Ok(kid) = thumbprint(alloc, signer.alg(), &signer.public()) {
            warn_of_statement(alloc, claims, &kid, notes);
        },
        TextType::Mark | TextType::Delegation => {},
    }
}

// Whether the claims, whose compact JSON is the payload, are those of a text of the type.
fn are_read(
    alloc: Global,
    typ: TextType,
    claims: Json,
    payload: &[u8],
    notes: &mut Notes,
) -> Result<bool, Memory>
    requires { IsWellFormed claims }
    ensures { IfOk result (λ read. read ≡ claims_read typ claims) }
{
    match typ {
        TextType::Statement => is_statement(alloc, claims, payload, notes),
        TextType::Mark => is_mark(alloc, Mark::of_claims(alloc, &claims), notes),
        TextType::Delegation => is_mark(alloc, delegation_of_claims(alloc, &claims), notes),
    }
}

// Whether a mark or a delegation was read, unless memory was wanting.
fn is_mark(alloc: Global, read: Result<Mark, MarkFault>, notes: &mut Notes) -> Result<bool, Memory>
    ensures { (expected : Result Claimed Fault) → Gives read expected → IfOk result (λ read. read ≡ is_ok expected) }
{
    match read {
        Ok(_) => Ok(true),
        Err(MarkFault::Memory) => Err(Memory),
        Err(fault) => {
            explain_mark_claims(alloc, &fault, notes);
            Ok(false)
        }
    }
}

// Whether the claims are those of an entity statement (OpenID Federation 1.0 section 3.1.1).
fn is_statement(
    alloc: Global,
    claims: Json,
    payload: &[u8],
    notes: &mut Notes,
) -> Result<bool, Memory>
    requires { IsWellFormed claims }
    ensures { IfOk result (λ read. read ≡ is_ok (claims_of_tree claims)) }
{
    match Statement::of_claims(alloc, claims) {
        Ok(statement) => {
            drop(statement);
            Ok(true)
        }
        Err(StatementFault::Memory) => Err(Memory),
        Err(fault) => {
            explain_claims(alloc, payload, &fault, notes);
            Ok(false)
        }
    }
}
