// Thumbprints of keys.

ghost use Rattle.std.specs.Prelude.{◌≡◌, IfOk};
ghost use Rattle.jwk_set.specs.Thumbprints.{thumbprint_of};

use crate::jwk::KEY_TYPE;
use base64url::{encode, encode_32};
use fed_base::{Alg, Memory, Text};
use jws_form::algorithm_name;
use sha2::{Digest, Sha256};
use std::alloc::Global;

/// The name that this project gives a key: the thumbprint (RFC 7638) with SHA-256, over the members `alg`, `kty` and
/// `pub`, in base64url, 43 characters. `public` is PK.seed and PK.root (FIPS 205).
pub fn thumbprint(alloc: Global, alg: Alg, public: &[u8; 32]) -> Result<Text, Memory>
    ensures { IfOk result (λ text. text ≡ thumbprint_of alg public.now) }
{
    let mut hasher = Sha256::new();
    hasher.update(b"{\"alg\":\"");
    hasher.update(algorithm_name(alg));
    hasher.update(b"\",\"kty\":\"");
    hasher.update(KEY_TYPE);
    hasher.update(b"\",\"pub\":\"");
    hasher.update(encode_32(public).as_slice());
    hasher.update(b"\"}");
    encode(alloc, &hasher.finalize())
}
