// Codes of trees.

ghost use Rattle.std.specs.Prelude.{◌≡◌, ◌++◌, ◌∷◌, [], fold, map, IfOk, OnOk};
ghost use Rattle.std.specs.Fmt.{signed_decimal};
ghost use Rattle.std.specs.List.{concat};
ghost use Rattle.fed_json.specs.Codes.{code_of as code_in, counted, hash_of as hash_in, hash_step, member_code};

use crate::tree::{Json, Member};
use fed_base::{Memory, Text};
use std::alloc::Global;

// By what a hash is multiplied at each byte.
const PRIME: u32 = 16_777_619;

/// The code of the tree: bytes of its own for each value, as bencode has them, with `n`, `t`, `f` and `o` for null, true, false and `Odd`.
pub(crate) fn code_of(alloc: Global, tree: &Json) -> Result<Vec<u8>, Memory>
    ensures { IfOk result (λ code. code.items ≡ code_in tree.now) }
{
    let mut code = Text::new(alloc);
    add_code(alloc, &mut code, tree)?;
    code.into_vec()
}

/// The hash of the tree: that of the bytes of a text, and of any other tree that of its code. Values that differ may have one hash.
#[tactic(auto, unfolding(crate::specs::Codes::hash_of))]
pub(crate) fn hash_of(alloc: Global, tree: &Json) -> Result<u32, Memory>
    ensures { IfOk result (λ hash. hash ≡ hash_in tree.now) }
{
    match tree {
        Json::Text(text) => Ok(hash_bytes(text.as_slice())),
        _ => {
            let code = code_of(alloc, tree)?;
            Ok(hash_bytes(code.as_slice()))
        }
    }
}

fn hash_bytes(bytes: &[u8]) -> u32
    ensures { result ≡ fold hash_step 0 bytes.now }
{
    bytes.iter().fold(
        0u32,
        |hash, byte| hash.wrapping_mul(PRIME).wrapping_add(u32::from(*byte)),
    )
}

#[cycle(code)]
fn add_code(alloc: Global, code: &mut Text, tree: &Json) -> Result<(), Memory>
    ensures { OnOk result (code.new ≡ code.old ++ code_in tree.now) }
{
    match tree {
        Json::Null => code.push(b'n'),
        Json::Bool(true) => code.push(b't'),
        Json::Bool(false) => code.push(b'f'),
        Json::Int(n) => add_int(alloc, code, *n),
        Json::Odd => code.push(b'o'),
        Json::Text(text) => add_counted(alloc, code, text),
        Json::List(items) => {
            code.push(b'l')?;
            add_items(alloc, code, items.as_slice())?;
            code.push(b'e')
        }
        Json::Object(members) => {
            code.push(b'd')?;
            add_members(alloc, code, members.as_slice())?;
            code.push(b'e')
        }
    }
}

#[cycle(code)]
fn add_items(alloc: Global, code: &mut Text, items: &[Json]) -> Result<(), Memory>
    ensures { OnOk result (code.new ≡ code.old ++ concat (map code_in items.now)) }
{
    for item in items {
        add_code(alloc, code, item)?;
    }
    Ok(())
}

#[cycle(code)]
fn add_members(alloc: Global, code: &mut Text, members: &[Member]) -> Result<(), Memory>
    ensures { OnOk result (code.new ≡ code.old ++ concat (map member_code members.now)) }
{
    for member in members {
        add_counted(alloc, code, &member.name)?;
        add_code(alloc, code, &member.value)?;
    }
    Ok(())
}

fn add_int(alloc: Global, code: &mut Text, n: i128) -> Result<(), Memory>
    ensures { OnOk result (code.new ≡ code.old ++ 105 ∷ (signed_decimal n ++ 101 ∷ [])) }
{
    let digits = format!(in alloc; "i{n}e")?;
    code.append(digits.as_bytes())
}

fn add_counted(alloc: Global, code: &mut Text, bytes: &Text) -> Result<(), Memory>
    ensures { OnOk result (code.new ≡ code.old ++ counted bytes.now) }
{
    let digits = format!(in alloc; "{}:", bytes.len())?;
    code.append(digits.as_bytes())?;
    code.append(bytes.as_slice())
}
