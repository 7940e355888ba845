// The answer of `keygen`.

ghost use Rattle.std.specs.Prelude.{◌≡◌, IfOk};
ghost use Rattle.cli_rings.specs.Keygens.{keygen_reply, public_line};

use crate::reply::{Reply, plain};
use cli_words::Moment;
use fed_json::write_tree;
use fed_ports::{Alg, Memory, Text};
use file_notes::{explain_order, explain_seeds, warn_of_key_end, warn_of_seeds};
use hex::FromHex;
use jwk_set::{Jwk, thumbprint, write_key};
use key_ring::{RingFault, first_file};
use plain_notes::Notes;
use ring_faults::{is_one_byte, seeds_fault};
use slh_dsa::KeyPair;
use std::alloc::Global;

/// The ring file of a key of that algorithm and the seeds that the input has, for these moments, and its public key as a JWK.
#[tactic(auto, unfolding(crate::specs::Keygens::keygen_reply))]
pub fn keygen(
    alloc: Global,
    alg: Alg,
    at: Moment,
    exp: Moment,
    input: &[u8],
    notes: &mut Notes,
) -> Result<Reply, Memory>
    ensures { IfOk result (λ reply. reply ≡ keygen_reply alg at exp input.now) }
{
    let Ok(seeds) = <[u8; 48]>::from_hex(input) else {
        explain_seeds(alloc, seeds_fault(input), notes);
        return plain(alloc, 2, b"input\n");
    };
    match first_file(alloc, alg, &seeds, at.seconds(), exp.seconds()) {
        Ok(file) => {
            if is_one_byte(&seeds) {
                warn_of_seeds(alloc, notes);
            }
            warn_of_key_end(alloc, exp.seconds(), notes);
            Ok(Reply {
                status: 0,
                text: public_line(alloc, &KeyPair::from_seeds(alg, &seeds))?,
                kept: Some(file),
            })
        }
        Err(RingFault::Memory) => Err(Memory),
        Err(_) => {
            explain_order(alloc, at.seconds(), exp.seconds(), notes);
            plain(alloc, 1, b"refused Order\n")
        }
    }
}

// The public key of a pair as a JWK in compact JSON, on its own line.
fn public_line(alloc: Global, keys: &KeyPair) -> Result<Text, Memory>
    ensures { IfOk result (λ line. line ≡ public_line keys.now) }
{
    let (alg, public) = (keys.alg(), keys.public());
    let kid = thumbprint(alloc, alg, &public)?;
    let mut line = write_tree(alloc, &write_key(alloc, &Jwk::Own { kid, alg, public })?)?;
    line.push(b'\n')?;
    Ok(line)
}
