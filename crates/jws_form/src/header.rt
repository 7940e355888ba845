// The header of a text.

ghost use Rattle.std.specs.Prelude.{◌≡◌, IfOk, IfSome, IsTrue};
ghost use Rattle.std.specs.Option.{option_copied};
ghost use Rattle.std.specs.Str.{IsUtf8};
ghost use Rattle.fed_json.specs.Forms.{members_well_formed};
ghost use Rattle.fed_json.specs.Trees.{find as found};
ghost use Rattle.jws_form.specs.Splitting.{Gives, GivesBy, text_of, names_of, names_in};

use crate::{FormFault, algorithm_of};
use fed_base::{Alg, Duplicate, Memory, Text};
use fed_json::{Json, Member, TreeFault, find, read_tree};
use std::alloc::Global;

/// What a header says (RFC 7515 sections 4.1.1, 4.1.9 and 4.1.4).
#[derive(Drop)]
pub(crate) struct Names {
    pub alg: Alg,
    pub typ: Option<Text>,
    pub kid: Option<Text>,
}

/// The algorithm, `typ` and `kid` of a header.
#[tactic(auto, unfolding(crate::specs::Splitting::names_in))]
pub(crate) fn read_header(alloc: Global, bytes: &[u8]) -> Result<Names, FormFault>
    ensures exact { Gives result (names_in bytes.now) }
    ensures typ { IfOk result (λ names. IfSome names.typ IsUtf8) }
    ensures kid { IfOk result (λ names. IfSome names.kid IsUtf8) }
{
    match read_tree(alloc, bytes) {
        Ok(Json::Object(members)) => read_members(alloc, members.as_slice()),
        Ok(_) | Err(TreeFault::Syntax) => Err(FormFault::Header),
        Err(TreeFault::Memory) => Err(FormFault::Memory),
    }
}

// The same of the header's members.
#[tactic(auto, unfolding(crate::specs::Splitting::names_of))]
fn read_members(alloc: Global, members: &[Member]) -> Result<Names, FormFault>
    requires { IsTrue (members_well_formed members.now) }
    ensures exact { Gives result (names_of members.now) }
    ensures typ { IfOk result (λ names. IfSome names.typ IsUtf8) }
    ensures kid { IfOk result (λ names. IfSome names.kid IsUtf8) }
{
    let typ = optional_text(members, b"typ")?;
    let kid = optional_text(members, b"kid")?;
    let alg = optional_text(members, b"alg")?;
    if find(members, b"crit").is_some() {
        return Err(FormFault::Crit);
    }
    let Some(alg) = alg.and_then(|name| algorithm_of(name.as_slice())) else {
        return Err(FormFault::Algorithm);
    };
    Ok(Names {
        alg,
        typ: copied(alloc, typ)?,
        kid: copied(alloc, kid)?,
    })
}

// The text under a name, where the name is there (RFC 7515 section 4).
fn optional_text<'a>(members: &'a [Member], name: &[u8]) -> Result<Option<&'a Text>, FormFault>
    requires { IsTrue (members_well_formed members.now) }
    ensures exact { GivesBy option_copied result (text_of (found name.now members.now)) }
    ensures utf8 { IfOk result (λ found. IfSome found (λ text. IsUtf8 text.now)) }
{
    match find(members, name) {
        None => Ok(None),
        Some(Json::Text(text)) => Ok(Some(text)),
        Some(_) => Err(FormFault::Header),
    }
}

// A copy of a text that may be absent.
fn copied(alloc: Global, text: Option<&Text>) -> Result<Option<Text>, Memory>
    ensures { IfOk result (λ copy. copy ≡ option_copied text.entry) }
{
    match text {
        Some(text) => Ok(Some(text.copy(alloc)?)),
        None => Ok(None),
    }
}
