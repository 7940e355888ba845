// The provider's node, and its files.

use fed_base::{Memory, Seq, Text};
use fed_ports::{MemoryStore, NamedFile};
use std::alloc::Global;

/// The moment of each registration, in seconds since 1970.
pub(crate) const MOMENT: u64 = 1_800_000_000;

// The configuration. Its routes lead to the hosts of the leaf and of the trust anchor.
const NODE: &[u8] =
    b"{\"entity_id\":\"https://op.example\",\"ring\":\"ring\",\"lifetime\":3600,\"resolver\":{\"anchors\":[{\"entity_id\":\"https://ta.example\",\"jwks\":{\"keys\":[{\"alg\":\"SLH-DSA-SHA2-128s\",\"kid\":\"GvnrvpnonJaEuzIqndKE_vyxxLqvy2IkYUXouYZQjAg\",\"kty\":\"AKP\",\"pub\":\"ICEiIyQlJicoKSorLC0uL5kM5imHkrEohGqOSjpolUw\"}]}}],\"age\":600,\"workers\":1,\"control\":{\"keys\":[]},\"routes\":[{\"host\":\"rp.example\",\"ip\":\"127.0.0.1\",\"port\":81},{\"host\":\"ta.example\",\"ip\":\"127.0.0.1\",\"port\":82}]}}";

// The ring, whose seeds are the bytes 192 to 239.
const RING: &[u8] =
    b"{\"keys\":[{\"exp\":1900000000,\"iat\":1800000000,\"seeds\":\"c0c1c2c3c4c5c6c7c8c9cacbcccdcecfd0d1d2d3d4d5d6d7d8d9dadbdcdddedfe0e1e2e3e4e5e6e7e8e9eaebecedeeef\",\"state\":\"live\"}],\"version\":1}";

// How many bytes are kept at most, and how many calls the store answers.
const ROOM: usize = 1000;

const CALLS: u64 = 100;

fn add_file(
    alloc: Global,
    name: &[u8],
    bytes: &[u8],
    files: &mut Seq<NamedFile>,
) -> Result<(), Memory> {
    let name = Text::of(alloc, name)?;
    let bytes = Text::of(alloc, bytes)?;
    files.push(NamedFile { name, bytes })
}

/// A store of the node's files `node` and `ring`.
pub(crate) fn store(alloc: Global) -> Result<MemoryStore, Memory> {
    let mut files = Seq::new(alloc);
    add_file(alloc, b"node", NODE, &mut files)?;
    add_file(alloc, b"ring", RING, &mut files)?;
    MemoryStore::new(alloc, files, ROOM, false, &[], CALLS)
}
