// The signed text of claims.

ghost use Rattle.std.specs.Prelude.{◌≡◌, IfOk};
ghost use Rattle.std.specs.Thread.{IsSync};
ghost use Rattle.fed_json.specs.Compact.{compact};
ghost use Rattle.fed_json.specs.Forms.{IsWhole};
ghost use Rattle.sealed.specs.Sealing.{IsSealedFor, IsSignedAs, sealed_text};
ghost use Rattle.resolve_reply.specs.Replies.{ReadsBack, reply_type};

use crate::signer::Signer;
use fed_base::{Memory, Text};
use fed_json::{Json, write_tree};
use sealed::seal_signed;
use sign_many::Workers;
use std::alloc::Global;
use std::thread::Threads;

/// The `typ` of the header of a reply (OpenID Federation 1.0 section 8.3.2).
pub const REPLY_TYPE: &[u8] = b"resolve-response+jwt";

// The claims in compact JSON, signed as a reply by the signer's workers.
pub(crate) fn sealed_claims<R: Threads + Sync>(
    rt: &R,
    alloc: Global,
    signer: &Signer,
    claims: &Json,
) -> Result<Text, Memory>
    requires { IsWhole claims.now }
    ensures text { IfOk result (λ text. text ≡ sealed_text signer.now.keys reply_type claims.now) }
    ensures sealed { IfOk result (IsSealedFor signer.now.keys) }
    ensures signed { IfOk result (IsSignedAs signer.now.keys reply_type (compact claims.now)) }
    ensures reads { IfOk result (ReadsBack signer.now.keys claims.now) }
{
    let typ = Text::of(alloc, REPLY_TYPE)?;
    let payload = write_tree(alloc, claims)?;
    let workers = Workers {
        rt,
        count: signer.workers,
    };
    seal_signed(alloc, &signer.keys, &typ, payload.as_slice(), &workers)
}
