// Signed registrations.

ghost use Rattle.std.specs.Prelude.{◌≡◌, IfOk};
ghost use Rattle.fed_json.specs.Forms.{IsWhole};
ghost use Rattle.sealed.specs.Sealing.{IsObject, IsSealedFor, sealed_text};
ghost use Rattle.client_register.specs.Answers.{registration_type};

use fed_base::{Duplicate, Memory, Text};
use fed_json::Json;
use sealed::seal;
use slh_dsa::KeyPair;
use std::alloc::Global;

/// The `typ` of the header of a registration (OpenID Federation 1.0 section 12.2.3).
pub const REGISTRATION_TYPE: &[u8] = b"explicit-registration-response+jwt";

/// A signed registration.
#[derive(Drop)]
pub struct Registered {
    /// What it claims.
    pub claims: Json,
    /// The claims, sealed, as compact text.
    pub text: Text,
}

impl Duplicate for Registered {
    fn copy(&self, alloc: Global) -> Result<Self, Memory> {
        let text = self.text.copy(alloc)?;
        let claims = self.claims.copy(alloc)?;
        Ok(Registered { claims, text })
    }
}

/// The claims, signed as a registration.
pub(crate) fn seal_registration(
    alloc: Global,
    keys: &KeyPair,
    claims: Json,
) -> Result<Registered, Memory>
    requires whole { IsWhole claims }
    requires object { IsObject claims }
    ensures claims { IfOk result (λ registered. registered.claims ≡ claims) }
    ensures text { IfOk result (λ registered. registered.text ≡ sealed_text keys.now registration_type claims) }
    ensures sealed { IfOk result (λ registered. IsSealedFor keys.now registered.text) }
{
    let typ = Text::of(alloc, REGISTRATION_TYPE)?;
    let text = seal(alloc, keys, &typ, &claims)?;
    Ok(Registered { claims, text })
}
