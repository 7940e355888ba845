// What is told of a reply, read from its text.

ghost use Rattle.std.specs.Prelude.{IfOk};
ghost use Rattle.jws_form.specs.Compact.{IsCompact};

use crate::names::name_of;
use crate::words::{add_number, add_word};
use entity_statement::{SignedStatement, Statement};
use fed_base::{MOMENT_LIMIT, Memory, OpensLedgers, Plain, Steps, Text};
use fed_json::{
    Json, Member, count_below, find, is_whole, object_members, read_tree, text_at, write_tree,
};
use jws_form::{Compact, FormFault, split};
use resolve_reply::{Reply, Signer, chain_of};
use sealed::{Tested, test_key};
use std::alloc::Global;

fn parts(alloc: Global, text: &[u8]) -> Result<Compact, FormFault>
    ensures { IfOk result (λ compact. IsCompact compact.whole compact) }
{
    split(alloc, text)
}

// Adds who says it and about whom, with a comma behind it.
fn add_statement(out: &mut Text, statement: &Statement) -> Result<(), Memory> {
    add_word(out, name_of(&statement.iss))?;
    if statement.iss != statement.sub {
        add_word(out, b"about")?;
        add_word(out, name_of(&statement.sub))?;
    }
    out.push(b',')
}

fn add_text(alloc: Global, out: &mut Text, text: &[u8]) -> Result<(), Memory> {
    let Some(signed) = SignedStatement::read(alloc, text)? else {
        return Ok(());
    };
    let added = add_statement(out, &signed.statement);
    drop(signed);
    added
}

fn add_chain(alloc: Global, out: &mut Text, items: &[Json]) -> Result<(), Memory> {
    for item in items {
        if let Json::Text(text) = item {
            add_text(alloc, out, text.as_slice())?;
        }
    }
    out.pop();
    Ok(())
}

fn add_marks(out: &mut Text, items: &[Json]) -> Result<(), Memory> {
    for item in items {
        if let Some(mark_type) = text_at(object_members(item), b"trust_mark_type") {
            add_word(out, mark_type.as_slice())?;
        }
    }
    Ok(())
}

fn items_of<'a>(claims: &'a [Member], name: &[u8]) -> &'a [Json] {
    match find(claims, name) {
        Some(Json::List(items)) => items.as_slice(),
        _ => &[],
    }
}

fn add_moment(alloc: Global, out: &mut Text, claims: &[Member], name: &[u8]) -> Result<(), Memory> {
    add_word(out, name)?;
    match find(claims, name) {
        Some(tree) => add_number(alloc, out, count_below(tree, MOMENT_LIMIT).unwrap_or(0)),
        None => add_word(out, b"-"),
    }
}

fn add_tree(alloc: Global, out: &mut Text, claims: &[Member], name: &[u8]) -> Result<(), Memory> {
    match find(claims, name) {
        Some(tree) if is_whole(tree) => add_word(out, write_tree(alloc, tree)?.as_slice()),
        _ => add_word(out, b"-"),
    }
}

fn add_claims(alloc: Global, out: &mut Text, claims: &[Member], word: &str) -> Result<(), Memory> {
    match word {
        "chain" => add_chain(alloc, out, items_of(claims, b"trust_chain")),
        "marks" => add_marks(out, items_of(claims, b"trust_marks")),
        "times" => {
            add_moment(alloc, out, claims, b"iat")?;
            add_moment(alloc, out, claims, b"exp")
        }
        _ => add_tree(alloc, out, claims, word.as_bytes()),
    }
}

// Adds the type of the text, and whether the resolver signed it.
fn add_seal<R: OpensLedgers>(
    rt: &R,
    alloc: Global,
    out: &mut Text,
    compact: &Compact,
    public: &[u8; 32],
) -> Result<(), Memory>
    requires { IsCompact compact.now.whole compact.now }
{
    if let Some(typ) = &compact.typ {
        add_word(out, typ.as_slice())?;
    }
    let mut steps = Steps {
        ledger: Plain::new(rt),
    };
    match test_key(alloc, compact, public, &mut steps)? {
        Tested::Yes(_) => add_word(out, b"signed"),
        Tested::No(_) => add_word(out, b"not signed"),
    }
}

// Adds what stands beside the text: the end of the chain, and whose the configurations are.
fn add_beside(alloc: Global, out: &mut Text, reply: &Reply) -> Result<(), Memory> {
    add_number(alloc, out, reply.chain_exp)?;
    let configs = reply.configs.as_slice();
    for config in configs {
        add_text(alloc, out, config.as_slice())?;
    }
    if !configs.is_empty() {
        out.pop();
    }
    Ok(())
}

// Adds the chain of the claims, whatever the length of the text.
fn add_claimed(alloc: Global, out: &mut Text, reply: &Reply) -> Result<(), Memory> {
    let Some(chain) = chain_of(alloc, &reply.claims)? else {
        return Ok(());
    };
    for text in chain.as_slice() {
        add_text(alloc, out, text.as_slice())?;
    }
    out.pop();
    Ok(())
}

/// Adds what a word asks for: `beside`, `claimed`, `chain`, `marks`, `times`, `seal`, or a claim by its name.
pub(crate) fn add_reply<R: OpensLedgers>(
    rt: &R,
    alloc: Global,
    out: &mut Text,
    reply: &Reply,
    signer: &Signer,
    word: &str,
) -> Result<(), Memory> {
    out.push(b';')?;
    add_word(out, word.as_bytes())?;
    match word {
        "beside" => return add_beside(alloc, out, reply),
        "claimed" => return add_claimed(alloc, out, reply),
        _ => {}
    }
    let Ok(compact) = parts(alloc, reply.text.as_slice()) else {
        return add_word(out, b"no text");
    };
    if word == "seal" {
        return add_seal(rt, alloc, out, &compact, &signer.keys.public());
    }
    match read_tree(alloc, compact.payload.as_slice()) {
        Ok(tree) => add_claims(alloc, out, object_members(&tree), word),
        Err(_) => add_word(out, b"no JSON"),
    }
}
