// Where a head ends.

ghost use Rattle.std.specs.Prelude.{◌≡◌, ◌≤◌, length, drop, nat_eq};
ghost use Rattle.std.specs.List.{starts_with};
ghost use Rattle.http_messages.specs.Heads.{head_end, behind, blank};

pub(crate) const HEAD_LIMIT: usize = 16_384;

/// The most header lines of a head.
pub const LINE_LIMIT: usize = 64;

// Whether the bytes begin with the end of a line and an empty line.
fn begins_blank(text: &[u8]) -> bool
    ensures { result ≡ starts_with nat_eq text.now blank }
{
    text.starts_with(b"\r\n\r\n")
}

/// How many bytes stand up to and with the first CR LF CR LF (RFC 9112 section 2.1), looked for from that place on, where there is none
/// before it.
pub fn head_end(text: &[u8], from: usize) -> Option<usize>
    requires in_range { from ≤ length text.now }
    requires before { head_end text.now ≡ behind from (head_end (drop from text.now)) }
    ensures { result ≡ head_end text.now }
{
    for at in from..text.len() {
        if begins_blank(&text[at..]) {
            return Some(at + 4);
        }
    }
    None
}
