// Reading the page of an answer.

ghost use Rattle.std.specs.Prelude.{◌≡◌, ◌<◌, ◌≤◌, ℕ, false, [], length, IfOk, MatchResult};
ghost use Rattle.http_messages.specs.Flows.{BreakCause, OnFailed};
ghost use Rattle.http_messages.specs.Asked.{asked_of};
ghost use Rattle.http_plain.specs.Pages.{chunked_page, piece_limit};
ghost use Rattle.http_messages.specs.Heads.{head_limit};
ghost use Rattle.http_plain.specs.Shown.{HasHead, Lacks, LacksBody, LacksRest, Reaches, Shows, ShowsBody, ShowsRest, TakesRoom};

use crate::form::{Form, form_of};
use chunked_body::{ChunkReader, Chunked};
use fed_ports::{Failed, Memory, Page, Text};
use http_messages::{Break, Inflow, pour_head, pour_to};
use std::alloc::Global;

const PAGE_LIMIT: u64 = 262_144;

// Reads one answer, in whatever pieces it comes.
pub(crate) fn read_page<T, I: Inflow<T>>(alloc: Global, from: &mut T) -> Result<Page, Break>
    requires { I.ready from.old }
    ensures ready { I.ready from.new }
    ensures page { IfOk result (λ page. Shows (I.came from.old from.new) page) }
    ensures broke { OnFailed result (Lacks (I.broke from.old from.new)) }
    ensures asked { asked_of (I.told from.new) ≡ asked_of (I.told from.old) }
    ensures still { I.fixed_of from.new ≡ I.fixed_of from.old }
    ensures cause { BreakCause (I.in_faults from.old) (I.in_faults from.new) result }
{
    let mut buffer = [0u8; 4096];
    let mut text = Vec::new(alloc);
    let end = pour_head::<T, I>(from, &mut buffer, &mut text)?;
    let Some(len) = end else {
        return Ok(Page::Garbled);
    };
    let form = form_of(&text[..len]);
    read_body::<T, I>(alloc, from, &mut buffer, &mut text, len, form)
}

// Reads the body behind the first bytes of the text.
fn read_body<T, I: Inflow<T>>(
    alloc: Global,
    from: &mut T,
    buffer: &mut [u8],
    text: &mut Vec<u8>,
    len: usize,
    form: Form,
) -> Result<Page, Break>
    requires head { HasHead buffer.old text.old.items len }
    requires ready { I.ready from.old }
    ensures ready { I.ready from.new }
    ensures page { IfOk result (λ page. ShowsBody (I.came from.old from.new) text.old.items len form page) }
    ensures broke { OnFailed result (LacksBody (I.broke from.old from.new) text.old.items len form) }
    ensures asked { asked_of (I.told from.new) ≡ asked_of (I.told from.old) }
    ensures still { I.fixed_of from.new ≡ I.fixed_of from.old }
    ensures cause { BreakCause (I.in_faults from.old) (I.in_faults from.new) result }
{
    match form {
        Form::Bad => Ok(Page::Garbled),
        Form::Chunked => read_chunks::<T, I>(alloc, from, buffer, &text[len..]),
        Form::Refused(status) => Ok(Page::Refusal(status)),
        Form::Sized(n) => read_sized::<T, I>(alloc, from, buffer, text, len, n),
        Form::ToEnd => read_to_end::<T, I>(alloc, from, buffer, text, len),
    }
}

// The document of these bytes.
fn document(alloc: Global, body: &[u8]) -> Result<Page, Break>
    ensures { MatchResult result (λ page. page ≡ Page.Document body.now) (λ fault. fault ≡ Break.Memory) }
{
    match Text::of(alloc, body) {
        Ok(text) => Ok(Page::Document(text)),
        Err(Memory) => Err(Break::Memory),
    }
}

// Reads a body of that length.
fn read_sized<T, I: Inflow<T>>(
    alloc: Global,
    from: &mut T,
    buffer: &mut [u8],
    text: &mut Vec<u8>,
    len: usize,
    n: u64,
) -> Result<Page, Break>
    requires head { HasHead buffer.old text.old.items len }
    requires ready { I.ready from.old }
    ensures ready { I.ready from.new }
    ensures page { IfOk result (λ page. ShowsBody (I.came from.old from.new) text.old.items len (Form.Sized n) page) }
    ensures broke { OnFailed result (LacksBody (I.broke from.old from.new) text.old.items len (Form.Sized n)) }
    ensures asked { asked_of (I.told from.new) ≡ asked_of (I.told from.old) }
    ensures still { I.fixed_of from.new ≡ I.fixed_of from.old }
    ensures cause { BreakCause (I.in_faults from.old) (I.in_faults from.new) result }
{
    if n > PAGE_LIMIT {
        return Ok(Page::TooLong);
    }
    let until = len + n as usize;
    pour_to::<T, I>(from, buffer, text, until)?;
    if text.len() < until {
        return Ok(Page::Garbled);
    }
    document(alloc, &text[len..until])
}

// Reads a body that goes to the end.
fn read_to_end<T, I: Inflow<T>>(
    alloc: Global,
    from: &mut T,
    buffer: &mut [u8],
    text: &mut Vec<u8>,
    len: usize,
) -> Result<Page, Break>
    requires head { HasHead buffer.old text.old.items len }
    requires ready { I.ready from.old }
    ensures ready { I.ready from.new }
    ensures page { IfOk result (λ page. ShowsBody (I.came from.old from.new) text.old.items len Form.ToEnd page) }
    ensures broke { OnFailed result (LacksBody (I.broke from.old from.new) text.old.items len Form.ToEnd) }
    ensures asked { asked_of (I.told from.new) ≡ asked_of (I.told from.old) }
    ensures still { I.fixed_of from.new ≡ I.fixed_of from.old }
    ensures cause { BreakCause (I.in_faults from.old) (I.in_faults from.new) result }
{
    let until = len + PAGE_LIMIT as usize + 1;
    pour_to::<T, I>(from, buffer, text, until)?;
    if text.len() >= until {
        return Ok(Page::TooLong);
    }
    document(alloc, &text[len..])
}

// The page of a body in chunks.
fn chunked_page(chunked: Chunked) -> Page
    ensures { result ≡ chunked_page chunked }
{
    match chunked {
        Chunked::Whole(body) => Page::Document(body),
        Chunked::TooLong => Page::TooLong,
        Chunked::Broken => Page::Garbled,
    }
}

// Gives what comes next to a reading of chunks that goes on. Whether the end came.
fn pour_chunks<T, I: Inflow<T>>(
    from: &mut T,
    buffer: &mut [u8],
    chunks: &mut ChunkReader,
) -> Result<bool, Break>
    requires room { 0 < length buffer.old }
    requires ready { I.ready from.old }
    ensures ready { I.ready from.new }
    ensures comes { IfOk result (λ e. Reaches (I.came from.old from.new) (length buffer.old) chunks.old chunks.new e) }
    ensures turns { IfOk result (λ e. e ≡ false → TakesRoom chunks.old chunks.new) }
    ensures broke { OnFailed result (I.broke from.old from.new []) }
    ensures buffer { length buffer.new ≡ length buffer.old }
    ensures asked { asked_of (I.told from.new) ≡ asked_of (I.told from.old) }
    ensures still { I.fixed_of from.new ≡ I.fixed_of from.old }
    ensures cause { BreakCause (I.in_faults from.old) (I.in_faults from.new) result }
{
    let n = match I::more(from, buffer) {
        Ok(n) => n,
        Err(Failed) => return Err(Break::Failed),
    };
    match chunks.take(&buffer[..n]) {
        Ok(()) => Ok(n == 0),
        Err(Memory) => Err(Break::Memory),
    }
}

// Reads a body in chunks.
fn read_chunks<T, I: Inflow<T>>(
    alloc: Global,
    from: &mut T,
    buffer: &mut [u8],
    text: &[u8],
) -> Result<Page, Break>
    requires room { 0 < length buffer.old }
    requires piece { length buffer.old ≤ piece_limit }
    requires short { length text.now ≤ head_limit }
    requires ready { I.ready from.old }
    ensures ready { I.ready from.new }
    ensures page { IfOk result (λ page. ShowsRest (I.came from.old from.new) text.now page) }
    ensures broke { OnFailed result (LacksRest (I.broke from.old from.new) text.now) }
    ensures asked { asked_of (I.told from.new) ≡ asked_of (I.told from.old) }
    ensures still { I.fixed_of from.new ≡ I.fixed_of from.old }
    ensures cause { BreakCause (I.in_faults from.old) (I.in_faults from.new) result }
{
    let mut chunks = ChunkReader::new(alloc);
    if chunks.take(text).is_err() {
        return Err(Break::Memory);
    }
    let mut ended = false;
    while !ended && !chunks.is_over() {
        ended = pour_chunks::<T, I>(from, buffer, &mut chunks)?;
    }
    Ok(chunked_page(chunks.end()))
}
