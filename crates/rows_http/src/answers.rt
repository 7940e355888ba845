// Responses that are written.

ghost use Rattle.http_plain.specs.Responses.{HasReason};

use crate::words::{bytes, cut, number, show};
use fed_base::{Memory, Text};
use fed_ports::MemorySink;
use http_plain::{Media, Response, WriteEnd, write_response};
use std::alloc::Global;

/// The status that the word says.
pub(crate) fn status(word: &str) -> u16
    ensures { HasReason result }
{
    match word {
        "400" => 400,
        "403" => 403,
        "404" => 404,
        "409" => 409,
        "500" => 500,
        "503" => 503,
        "507" => 507,
        _ => 200,
    }
}

// The media type that the word says.
fn media(word: &str) -> Media {
    match word {
        "Statement" => Media::Statement,
        "Resolve" => Media::Resolve,
        "JwkSet" => Media::JwkSet,
        "Status" => Media::Status,
        _ => Media::Json,
    }
}

fn held(alloc: Global, written: Result<(), WriteEnd>, bytes: &[u8]) -> Result<Text, Memory> {
    let mut out = Text::new(alloc);
    match written {
        Ok(()) => {}
        Err(WriteEnd::WriteFault) => out.append(b"WriteFault ")?,
        Err(WriteEnd::Memory) => return Err(Memory),
    }
    show(alloc, &mut out, bytes)?;
    Ok(out)
}

/// What a sink of that room holds of the response, behind why it isn't all.
pub(crate) fn write(alloc: Global, given: &str) -> Result<Text, Memory> {
    let (room, rest) = cut(given);
    let (word, rest) = cut(rest);
    let (kind, parts) = cut(rest);
    let response = Response {
        status: status(word),
        media: media(kind),
        body: bytes(alloc, parts)?,
    };
    let mut sink = MemorySink::new(alloc, number(room) as usize, &[], 1000)?;
    let written = write_response(alloc, &mut sink, &response);
    drop(response);
    let told = held(alloc, written, sink.as_slice());
    drop(sink);
    told
}
