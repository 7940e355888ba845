// What a rehearsal tells.

ghost use Rattle.std.specs.Prelude.{◌≡◌, ◌++◌, decimal, IfOk, IfSome, OnOk};
ghost use Rattle.std.specs.Option.{option_copied};
ghost use Rattle.fed_json.specs.Forms.{IsWhole};
ghost use Rattle.rehearsal.specs.Summaries.{IsCountOf, IsLast, calls_of, line, numbers_text, parameter_in, summary_text, two_numbers};

use crate::configurations::{add_name, add_number};
use fed_base::{Memory, Text};
use fed_json::{Json, find, object_members, write_tree};
use resolve_round::{Search, Trace};
use std::alloc::Global;

/// What a resolve call did.
#[derive(Clone, Copy, Drop)]
pub struct Counts {
    /// How many pages it asked of the link.
    pub calls: u64,
    /// How many signatures it tested.
    pub checks: u64,
}

/// What a rehearsal tells.
#[derive(Drop)]
pub struct Summary {
    /// How many parameters the leaf's metadata has.
    pub params: u64,
    /// How many statements the chain of the second reply has.
    pub chain: u64,
    /// What the first request took.
    pub first: Counts,
    /// What the second request took.
    pub second: Counts,
    /// The value of the last parameter in the resolved metadata as compact JSON, or `-` where there is no parameter.
    pub last: Text,
}

impl Summary {
    /// The six lines, each with its line end.
    #[tactic(auto, unfolding(crate::specs::Summaries::summary_text))]
    pub fn lines(&self, alloc: Global) -> Result<Text, Memory>
        ensures { IfOk result (λ text. text ≡ summary_text self.now) }
    {
        let mut text = Text::new(alloc);
        add_numbers(alloc, &mut text, self)?;
        text.append(b"last ")?;
        text.append(self.last.as_slice())?;
        text.append(b"\nvalid\n")?;
        Ok(text)
    }
}

// Adds the lines whose values are numbers.
#[tactic(auto, unfolding(crate::specs::Summaries::numbers_text))]
fn add_numbers(alloc: Global, text: &mut Text, summary: &Summary) -> Result<(), Memory>
    ensures { OnOk result (text.new ≡ text.old ++ numbers_text summary.now) }
{
    add_line(alloc, text, b"params ", summary.params)?;
    add_line(alloc, text, b"chain ", summary.chain)?;
    add_pair(
        alloc,
        text,
        b"link calls ",
        summary.first.calls,
        summary.second.calls,
    )?;
    add_pair(
        alloc,
        text,
        b"checks ",
        summary.first.checks,
        summary.second.checks,
    )
}

// Adds a line of a word and a number.
fn add_line(alloc: Global, text: &mut Text, word: &[u8], n: u64) -> Result<(), Memory>
    ensures { OnOk result (text.new ≡ text.old ++ line word.now (decimal n)) }
{
    text.append(word)?;
    add_number(alloc, text, n)?;
    text.push(b'\n')
}

// Adds a line of a word and two numbers.
fn add_pair(alloc: Global, text: &mut Text, word: &[u8], a: u64, b: u64) -> Result<(), Memory>
    ensures { OnOk result (text.new ≡ text.old ++ line word.now (two_numbers a b)) }
{
    text.append(word)?;
    add_number(alloc, text, a)?;
    text.push(b' ')?;
    add_number(alloc, text, b)?;
    text.push(b'\n')
}

/// What the resolve call of a trace took.
pub(crate) fn counts_of(trace: &Trace) -> Counts
    ensures { IsCountOf trace.now result }
{
    Counts {
        calls: calls_of(trace.searches.as_slice()),
        checks: trace.checks.len() as u64,
    }
}

// How many pages the rounds asked of the link.
#[tactic(auto, unfolding(crate::specs::Summaries::calls_of))]
fn calls_of(searches: &[Search]) -> u64
    ensures { result ≡ calls_of searches.now }
{
    let mut calls: u64 = 0;
    for search in searches {
        calls = calls.saturating_add(search.calls);
    }
    calls
}

/// The value of the last of so many parameters in the resolved metadata as compact JSON, or `-` where there is no parameter. One that
/// isn't there is told as want of memory.
pub(crate) fn last_of(alloc: Global, params: u64, metadata: &Json) -> Result<Text, Memory>
    requires { IsWhole metadata.now }
    ensures { IfOk result (IsLast params metadata.now) }
{
    if params == 0 {
        return Text::of(alloc, b"-");
    }
    let mut name = Text::new(alloc);
    add_name(alloc, &mut name, params - 1)?;
    match parameter_in(metadata, name.as_slice()) {
        Some(value) => write_tree(alloc, value),
        None => Err(Memory),
    }
}

// A parameter of the relying party's metadata.
#[tactic(auto, unfolding(crate::specs::Summaries::parameter_in))]
fn parameter_in<'a>(metadata: &'a Json, name: &[u8]) -> Option<&'a Json>
    requires { IsWhole metadata.now }
    ensures value { option_copied result ≡ parameter_in metadata.now name.now }
    ensures whole { IfSome result (λ value. IsWhole value.now) }
{
    let parameters = find(object_members(metadata), b"openid_relying_party")?;
    find(object_members(parameters), name)
}
