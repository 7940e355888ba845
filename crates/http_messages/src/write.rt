// Responses, in whatever pieces they are taken.

ghost use Rattle.std.specs.Prelude.{◌≡◌, ◌≤◌, ℕ, length, take, OnErr, OnOk, IfOk, option_copied};
ghost use Rattle.std.specs.String.{string_bytes};
ghost use Rattle.fed_ports.specs.Bytes.{Appends};
ghost use Rattle.fed_ports.specs.Causes.{HasCause};
ghost use Rattle.http_messages.specs.Responses.{HasReason, ResponseText, SaidText, head_with, media_name, out_of_memory, reason_of};
ghost use Rattle.http_messages.specs.Writings.{WriteCause, Writes, WritesKept, WritesWith};

use crate::response::{Media, Response};
use fed_ports::{Failed, Memory, Sink, write_all};
use std::alloc::Global;
use thiserror::Error;

/// Why a response wasn't written whole.
#[derive(Clone, Copy, Debug, PartialEq, Eq, Drop, Error)]
pub enum WriteEnd {
    /// The sink failed: its count of faults rose in the call, or stands at its last value, 2^64 - 1. A prefix of the response was written.
    #[error("the response could not be written")]
    WriteFault,
    /// Memory was wanting. Nothing was written.
    #[error("out of memory")]
    Memory,
}

fn reason(status: u16) -> Option<&'static str>
    ensures { option_copied result ≡ reason_of status }
{
    match status {
        200 => Some("200 OK"),
        400 => Some("400 Bad Request"),
        403 => Some("403 Forbidden"),
        404 => Some("404 Not Found"),
        409 => Some("409 Conflict"),
        500 => Some("500 Internal Server Error"),
        503 => Some("503 Service Unavailable"),
        507 => Some("507 Insufficient Storage"),
        _ => None,
    }
}

fn name(media: Media) -> &'static str
    ensures { result.now ≡ media_name media }
{
    match media {
        Media::Json => "application/json",
        Media::Statement => "application/entity-statement+jwt",
        Media::Resolve => "application/resolve-response+jwt",
        Media::JwkSet => "application/jwk-set+jwt",
        Media::Status => "application/trust-mark-status-response+jwt",
    }
}

// The head of a response, with that word on its connection.
fn head(
    alloc: Global,
    connection: &str,
    reason: &str,
    media: Media,
    size: usize,
) -> Result<String, Memory>
    ensures { IfOk result (λ text. string_bytes text ≡ head_with connection.now reason.now (media_name media) size) }
{
    let kind = name(media);
    match format!(in alloc;
        "HTTP/1.1 {reason}\r\nContent-Type: {kind}\r\nContent-Length: {size}\r\nConnection: {connection}\r\n\r\n"
    ) {
        Ok(text) => Ok(text),
        Err(_) => Err(Memory),
    }
}

// The text of a response, whose status has a reason.
fn response_text(alloc: Global, connection: &str, answer: &Response) -> Result<Vec<u8>, Memory>
    requires { HasReason answer.now.status }
    ensures { IfOk result (λ text. SaidText connection.now text.items answer.now) }
{
    let Some(reason) = reason(answer.status) else {
        return Err(Memory);
    };
    let mut text = head(alloc, connection, reason, answer.media, answer.body.len())?.into_bytes();
    text.extend_from_slice(answer.body.as_slice())?;
    Ok(text)
}

// Writes a response, with that word on its connection.
fn write_with<P: Sink>(
    alloc: Global,
    to: &mut P,
    connection: &str,
    answer: &Response,
) -> Result<(), WriteEnd>
    requires { HasReason answer.now.status }
    ensures written { WritesWith connection.now (P.held to.old) (P.held to.new) answer.now result }
    ensures cause { WriteCause (P.write_faults to.old) (P.write_faults to.new) result }
    ensures side { P.sink_side to.new ≡ P.sink_side to.old }
{
    let Ok(text) = response_text(alloc, connection, answer) else {
        return Err(WriteEnd::Memory);
    };
    match write_all(to, &text) {
        Ok(()) => Ok(()),
        Err(Failed) => Err(WriteEnd::WriteFault),
    }
}

/// Writes a response, whose status has a reason, as a message that ends its connection (RFC 9112 section 9.6). Its text is made first and
/// then given to the sink in one piece, where the sink takes it so; once it was given whole, the sink is told that it was the last.
pub fn write_response<P: Sink>(alloc: Global, to: &mut P, answer: &Response) -> Result<(), WriteEnd>
    requires { HasReason answer.now.status }
    ensures written { Writes (P.held to.old) (P.held to.new) answer.now result }
    ensures cause { WriteCause (P.write_faults to.old) (P.write_faults to.new) result }
    ensures side { P.sink_side to.new ≡ P.sink_side to.old }
{
    write_with(alloc, to, "close", answer)?;
    to.end();
    Ok(())
}

/// Writes a response, whose status has a reason, as a message behind which its connection goes on (RFC 9112 section 9.3). It differs from
/// that of [`write_response`] in the line `Connection: keep-alive`.
pub fn write_kept<P: Sink>(alloc: Global, to: &mut P, answer: &Response) -> Result<(), WriteEnd>
    requires { HasReason answer.now.status }
    ensures written { WritesKept (P.held to.old) (P.held to.new) answer.now result }
    ensures cause { WriteCause (P.write_faults to.old) (P.write_faults to.new) result }
    ensures side { P.sink_side to.new ≡ P.sink_side to.old }
{
    write_with(alloc, to, "keep-alive", answer)
}

const OUT_OF_MEMORY: &[u8] =
    b"HTTP/1.1 507 Insufficient Storage\r\nContent-Type: application/json\r\nContent-Length: 60\r\n\
      Connection: close\r\n\r\n{\"error\":\"server_error\",\"error_description\":\"out of memory\"}";

/// The whole text of the response that memory was wanting, which takes none and ends its connection.
pub fn out_of_memory() -> &'static [u8]
    ensures { ResponseText result.now out_of_memory }
{
    OUT_OF_MEMORY
}
