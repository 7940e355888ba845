// Signed replies.

ghost use Rattle.std.specs.Prelude.{◌≡◌, IfOk};
ghost use Rattle.fed_json.specs.Compact.{compact};
ghost use Rattle.sealed.specs.Sealing.{IsSealedFor, IsSignedAs};
ghost use Rattle.resolve_reply.specs.Replies.{IsReplyOf, IsWritable, ReadsBack, SaysReply, reply_type};

use crate::claims::reply_claims;
use crate::said::Said;
use crate::sealing::sealed_claims;
use crate::signer::Signer;
use fed_base::{Duplicate, Memory, Seq, Text};
use fed_json::Json;
use std::alloc::Global;
use std::thread::Threads;

/// A signed reply.
#[derive(Drop)]
pub struct Reply {
    /// What it claims.
    pub claims: Json,
    /// The claims, sealed, as compact text.
    pub text: Text,
    /// Until when the chain holds without the marks, in seconds since 1970.
    pub chain_exp: u64,
    /// For each mark of the claims, in their order, the configuration of its issuer by which it was judged: a signed text.
    pub configs: Seq<Text>,
}

impl Duplicate for Reply {
    fn copy(&self, alloc: Global) -> Result<Self, Memory> {
        let text = self.text.copy(alloc)?;
        let claims = self.claims.copy(alloc)?;
        let configs = self.configs.copy(alloc)?;
        Ok(Reply {
            claims,
            text,
            chain_exp: self.chain_exp,
            configs,
        })
    }
}

/// The reply that says this, signed by the signer's workers: its claims in compact JSON, under the type `resolve-response+jwt`. It
/// makes one signature. `chain_exp` and `configs` are kept beside it.
pub fn seal_reply<R: Threads + Sync>(
    rt: &R,
    alloc: Global,
    signer: &Signer,
    said: Said,
    chain_exp: u64,
    configs: Seq<Text>,
) -> Result<Reply, Memory>
    requires { IsWritable said }
    ensures reply { IfOk result (IsReplyOf signer.now said) }
    // Whatever its length, it is signed under the signer's key.
    ensures signed { IfOk result (λ reply. IsSignedAs signer.now.keys reply_type (compact reply.claims) reply.text) }
    // Who reads the text finds its parts, and in them the claims.
    ensures reads { IfOk result (λ reply. ReadsBack signer.now.keys reply.claims reply.text) }
    // The claims can be sealed anew.
    ensures says { IfOk result (λ reply. SaysReply reply.claims) }
    ensures beside { IfOk result (λ reply. (reply.chain_exp ≡ chain_exp) × (reply.configs ≡ configs)) }
    // A text of at most 262,144 bytes is sealed by each set that has the signer's key.
    ensures sealed { IfOk result (λ reply. IsSealedFor signer.now.keys reply.text) }
{
    let claims = reply_claims(alloc, &signer.iss, said)?;
    let text = sealed_claims(rt, alloc, signer, &claims)?;
    Ok(Reply {
        claims,
        text,
        chain_exp,
        configs,
    })
}
