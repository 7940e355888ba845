// Base64url in both directions.

ghost use Rattle.std.specs.Prelude.{◌≡◌, ℕ, ◌↔◌, List, length, IfOk, IfSome, Some};
ghost use Rattle.base64.specs.GeneralPurpose.{IsBytes};
ghost use Rattle.base64url.specs.Base64url.{base64url, decoded, decoded_32};

use base64::DecodeAllocError;
use base64::engine::general_purpose::URL_SAFE_NO_PAD;
use fed_base::{Memory, Text};
use std::alloc::Global;

/// The base64url of the bytes: 4 characters for each 3 bytes, and 2 or 3 for what is left over.
#[tactic(auto, unfolding(crate::specs::Base64url::base64url))]
pub fn encode(alloc: Global, bytes: &[u8]) -> Result<Text, Memory>
    ensures { IfOk result (λ text. text ≡ base64url bytes.now) }
{
    let text = URL_SAFE_NO_PAD.encode(alloc, bytes)?;
    Ok(Text::from_vec(text.into_bytes()))
}

/// The bytes whose base64url the text is, and `None` where it is that of none: another character, padding, a lone last
/// character, or bits left over that aren't zero.
#[tactic(auto, unfolding(crate::specs::Base64url::decoded, crate::specs::Base64url::base64url))]
pub fn decode(alloc: Global, text: &[u8]) -> Result<Option<Text>, Memory>
    ensures exact { IfOk result (λ bytes. bytes ≡ decoded text.now) }
    ensures canonical { IfOk result
        (λ bytes. (b : List ℕ) → IsBytes b → (bytes ≡ Some b) ↔ (text.now ≡ base64url b)) }
    ensures bytes { IfOk result (λ bytes. IfSome bytes IsBytes) }
{
    match URL_SAFE_NO_PAD.decode(alloc, text) {
        Ok(bytes) => Ok(Some(Text::from_vec(bytes))),
        Err(DecodeAllocError::DecodeError(_)) => Ok(None),
        Err(DecodeAllocError::OutOfMemory) => Err(Memory),
    }
}

/// The base64url of 32 bytes.
pub fn encode_32(bytes: &[u8; 32]) -> [u8; 43]
    ensures { result ≡ base64url bytes.now }
{
    let mut text = [0; 43];
    let _ = URL_SAFE_NO_PAD.encode_slice(bytes, &mut text);
    text
}

/// The 32 bytes whose base64url the text is, and `None` where it is that of none. Such a text has 43 characters.
pub fn decode_32(text: &[u8]) -> Option<[u8; 32]>
    ensures exact { result ≡ decoded_32 text.now }
    ensures canonical { (b : List ℕ) → IsBytes b → length b ≡ 32
        → (result ≡ Some b) ↔ (text.now ≡ base64url b) }
{
    if text.len() != 43 {
        return None;
    }
    let mut bytes = [0; 33];
    match URL_SAFE_NO_PAD.decode_slice_unchecked(text, &mut bytes) {
        Ok(_) => bytes.first_chunk::<32>().copied(),
        Err(_) => None,
    }
}
