// The signature of a message by several workers.

ghost use Rattle.std.specs.Prelude.{◌≡◌, ◌≤◌, ℕ, List, ◌++◌, length, take, drop};
ghost use Rattle.slh_hash.specs.Sets.{IsSet};
ghost use Rattle.slh_dsa.specs.Algorithms.{set_of};
ghost use Rattle.slh_dsa.specs.Keys.{pk_root_of, public_key};
ghost use Rattle.slh_dsa.specs.Signing.{signature_with};
ghost use Rattle.slh_dsa.specs.Verifying.{VerifiesBy, signature_bytes};

use crate::gate::Gate;
use crate::jobs::do_jobs;
use crate::work::Work;
use fed_base::Alg;
use fors::fors_bytes;
use slh_dsa::{MOST_DIGEST_BYTES, leaf_of, md_of, part, tree_of, write_digest};
use slh_hash::{P128S, Params, SeedHash, prf_msg};
use std::thread::Threads;

// The algorithm of a set.
fn alg_of(params: &Params) -> Alg
    requires { IsSet params.now }
    ensures { set_of result ≡ params.now }
{
    if params.d == P128S.d {
        Alg::Small
    } else {
        Alg::Fast
    }
}

/// Writes the signature of a message, as many bytes as the set has: 7,856 or 17,088. `secret` is SK.seed, SK.prf, PK.seed and PK.root,
/// 16 bytes each, and the bytes are those of FIPS 205 Algorithms 19 and 22 for these four, without fresh random bytes and with an empty
/// context. FORS and the layers, d + 1 jobs, are done by 1 to 16 workers, of which this thread is one; where no other can be started it
/// does their work. Each job calls `enter` of the gate as it begins. It takes no memory.
pub fn sign_many<R: Threads + Sync, G: Gate + Sync>(
    rt: &R,
    params: &Params,
    secret: &[u8; 64],
    message: &[u8],
    workers: u64,
    gate: &G,
    signature: &mut [u8],
)
    requires set { IsSet params.now }
    requires workers { (1 ≤ workers) × (workers ≤ 16) }
    requires room { length signature.old ≡ signature_bytes params.now }
    ensures written { signature.new ≡ signature_with params.now (take 16 secret.now) (take 16 (drop 16 secret.now)) (take 16 (drop 32 secret.now)) (drop 48 secret.now) message.now }

    // The private key of a key pair makes what verifies under its public key.
    ensures verifies { (seeds : List ℕ) → length seeds ≡ 48 → secret.now ≡ seeds ++ pk_root_of params.now seeds
        → VerifiesBy params.now (public_key params.now seeds) message.now signature.new }
{
    let alg = alg_of(params);
    let sk_seed = part(secret, 0);
    let sk_prf = part(secret, 16);
    let pk_seed = part(secret, 32);
    let pk_root = part(secret, 48);
    let randomizer = prf_msg(&sk_prf, &pk_seed, message);
    let mut buffer = [0u8; MOST_DIGEST_BYTES];
    let count = write_digest(alg, &randomizer, &pk_seed, &pk_root, message, &mut buffer);
    let digest = &buffer[..count];
    let seed = SeedHash::new(&pk_seed);
    let work = Work {
        params: *params,
        seed: &seed,
        sk_seed: &sk_seed,
        tree: tree_of(alg, digest),
        leaf: leaf_of(alg, digest),
        md: md_of(alg, digest),
    };
    let (front, parts) = signature.split_at_mut(16);
    front.copy_from_slice(&randomizer);
    do_jobs(rt, gate, &work, 0, params.d + 1, workers, parts);
    let (sig_fors, sig_ht) = parts.split_at_mut(fors_bytes(params));
    let key = work.fors_key(sig_fors);
    work.sign_layers(params.d, &key, sig_ht);
}
