// The file of a new ring.

ghost use Rattle.std.specs.Prelude.{◌<◌};
ghost use Rattle.fed_base.specs.Moments.{moment_limit};
ghost use Rattle.key_ring.specs.Files.{IsFirstFile};

use crate::fault::{OrderFault, RingFault};
use crate::key::fresh_key;
use crate::writing::ring_text;
use fed_base::{Alg, Seq, Text};
use std::alloc::Global;

/// The text of a ring of one live key of that algorithm, compact JSON without a line end. `Order(Exp)` exactly where the key would end no
/// later than it begins.
pub fn first_file(
    alloc: Global,
    alg: Alg,
    seeds: &[u8; 48],
    at: u64,
    exp: u64,
) -> Result<Text, RingFault>
    requires { exp < moment_limit }
    ensures { IsFirstFile alg seeds.now at exp result }
{
    if exp <= at {
        return Err(RingFault::Order(OrderFault::Exp));
    }
    let mut keys = Seq::new(alloc);
    keys.push(fresh_key(alg, *seeds, at, exp))?;
    Ok(ring_text(alloc, keys.as_slice())?)
}
