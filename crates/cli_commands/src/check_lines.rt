// The lines that tell what is found of a trust chain.

ghost use Rattle.std.specs.Prelude.{◌≡◌, ◌++◌, ◌∷◌, [], decimal, IfOk, IsTrue, OnOk};
ghost use Rattle.std.specs.Str.{is_utf8};
ghost use Rattle.chain_check.specs.Verdicts.{CanBeWritten, HasUtf8Names};
ghost use Rattle.cli_commands.specs.Checks.{lines_of, reason_text, status_of};
ghost use Rattle.fed_json.specs.Compact.{compact, quoted};
ghost use Rattle.fed_json.specs.Forms.{IsWhole};

use chain_check::{Reason, Verdict};
use fed_json::{Json, write_tree};
use fed_ports::{Duplicate, Memory, Text};
use std::alloc::Global;

/// The exit status: 0 for a valid chain, 1 for a refused one.
pub fn status(verdict: &Verdict) -> u8
    ensures { result ≡ status_of verdict.now }
{
    match verdict {
        Verdict::Valid(_) => 0,
        Verdict::Refused { .. } => 1,
    }
}

/// The lines, each with its line end.
pub fn verdict_lines(alloc: Global, verdict: &Verdict) -> Result<Text, Memory>
    requires { CanBeWritten verdict.now }
    ensures { IfOk result (λ text. text ≡ lines_of verdict.now) }
{
    match verdict {
        Verdict::Valid(resolved) => {
            let mut lines = Text::of(alloc, b"valid ")?;
            lines.append(resolved.leaf.text())?;
            lines.push(b' ')?;
            append_number(alloc, &mut lines, resolved.exp)?;
            lines.push(b'\n')?;
            append_tree(alloc, &mut lines, &resolved.metadata)?;
            lines.push(b'\n')?;
            Ok(lines)
        }
        Verdict::Refused { place, reason } => {
            let mut line = Text::of(alloc, b"refused ")?;
            append_number(alloc, &mut line, *place)?;
            line.push(b' ')?;
            append_reason(alloc, &mut line, reason)?;
            line.push(b'\n')?;
            Ok(line)
        }
    }
}

/// Appends a reason: its name, and where policies are the reason the entity type and the parameter as JSON strings and the operators by
/// name.
pub fn append_reason(alloc: Global, line: &mut Text, reason: &Reason) -> Result<(), Memory>
    requires { HasUtf8Names reason.now }
    ensures { OnOk result (line.new ≡ line.old ++ reason_text reason.now) }
{
    match reason {
        Reason::Form => line.append(b"Form"),
        Reason::Names => line.append(b"Names"),
        Reason::Times => line.append(b"Times"),
        Reason::Signature => line.append(b"Signature"),
        Reason::PathLength => line.append(b"PathLength"),
        Reason::Name => line.append(b"Name"),
        Reason::Conflict {
            entity_type,
            parameter,
            first,
            second,
        } => {
            line.append(b"Conflict ")?;
            append_parameter(alloc, line, entity_type, parameter)?;
            line.append(first.name().as_bytes())?;
            line.push(b' ')?;
            line.append(second.name().as_bytes())
        }
        Reason::Policy {
            entity_type,
            parameter,
            operator,
        } => {
            line.append(b"Policy ")?;
            append_parameter(alloc, line, entity_type, parameter)?;
            line.append(operator.name().as_bytes())
        }
    }
}

// The entity type and the parameter as JSON strings, with a space behind each.
#[tactic(auto, using(crate::proofs::VerdictLaws::whole_text, crate::proofs::VerdictLaws::compact_text_of))]
fn append_parameter(
    alloc: Global,
    line: &mut Text,
    entity_type: &Text,
    parameter: &Text,
) -> Result<(), Memory>
    requires entity_type { IsTrue (is_utf8 entity_type.now) }
    requires parameter { IsTrue (is_utf8 parameter.now) }
    ensures { OnOk result (line.new ≡ line.old ++ (quoted entity_type.now ++ (32 ∷ (quoted parameter.now ++ 32 ∷ [])))) }
{
    append_tree(alloc, line, &Json::Text(entity_type.copy(alloc)?))?;
    line.push(b' ')?;
    append_tree(alloc, line, &Json::Text(parameter.copy(alloc)?))?;
    line.push(b' ')
}

/// Appends a number in decimal digits.
#[tactic(auto, using(crate::proofs::VerdictLaws::whole_number, crate::proofs::VerdictLaws::compact_number_of))]
pub fn append_number(alloc: Global, line: &mut Text, n: u64) -> Result<(), Memory>
    ensures { OnOk result (line.new ≡ line.old ++ decimal n) }
{
    append_tree(alloc, line, &Json::Int(n as i128))
}

/// Appends a tree in compact form.
pub fn append_tree(alloc: Global, line: &mut Text, tree: &Json) -> Result<(), Memory>
    requires { IsWhole tree.now }
    ensures { OnOk result (line.new ≡ line.old ++ compact tree.now) }
{
    let text = write_tree(alloc, tree)?;
    line.append(text.as_slice())
}
