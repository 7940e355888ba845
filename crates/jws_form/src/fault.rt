// Why a text is refused.

ghost use Rattle.std.specs.Prelude.{◌≡◌};

use thiserror::Error;

/// Why a text is refused. A text with several faults is refused for the first of these.
#[derive(Clone, Copy, Debug, PartialEq, Eq, Drop, Error)]
pub enum FormFault {
    /// It has more than 262,144 bytes.
    #[error("the text is longer than 262,144 bytes")]
    TooLong,
    /// It has fewer or more than two full stops.
    #[error("the text has not three parts")]
    Parts,
    /// A part isn't the base64url of any bytes (RFC 7515 section 2). The first such part is named: 0 for the header, 1
    /// for the payload, 2 for the signature.
    #[error("part {0} is not base64url")]
    Base64(u8),
    /// The header isn't a JSON object, or its `typ`, `kid` or `alg` isn't a text.
    #[error("the header is not an object of the right form")]
    Header,
    /// The header asks for extensions, of which none is known here (RFC 7515 section 4.1.11).
    #[error("the header asks for extensions by `crit`")]
    Crit,
    /// The header's `alg` is absent, or is neither `SLH-DSA-SHA2-128s` nor `SLH-DSA-SHA2-128f`.
    #[error("the header's `alg` is neither SLH-DSA-SHA2-128s nor SLH-DSA-SHA2-128f")]
    Algorithm,
    /// There was no memory for the parts.
    #[error("out of memory")]
    Memory,
}

impl From<fed_base::Memory> for FormFault {
    ghost use Rattle.jws_form.specs.declared.fault.FormFault.TheVariants.{Memory};

    ghost from_gives = { λ _ fault. fault ≡ Memory };

    fn from(_: fed_base::Memory) -> Self {
        FormFault::Memory
    }
}
