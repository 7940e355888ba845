// The texts of `--help` and `--version`.

/// What `--help` writes: every command with its options, on one screen.
pub const HELP: &[u8] = b"fed: an authority and trust chain resolver of OpenID Federation 1.0

usage: fed verify PUB < TEXT
       fed keygen --ring FILE --at T --exp T [--alg ALG] < SEEDS
       fed issue --ring FILE --typ TYP [--workers W] < CLAIMS
       fed rotate --ring FILE --act add --at T --exp T [--alg ALG] < SEEDS
       fed rotate --ring FILE --act retire --kid KID
       fed rotate --ring FILE --act revoke --kid KID --at T --reason R
       fed public --ring FILE [--kid KID]
       fed check --anchor ID --keys FILE [--at T] < CHAIN
       fed check-reply --keys FILE --anchor ID --anchor-keys FILE [--at T]
           < REPLY
       fed show [--claims yes] < TEXT
       fed check-config --config FILE [--at T] [--strict yes]
       fed authority --config FILE --port P --connections N [--stream yes]
       fed resolver --config FILE --port P --connections N
       fed resolve --config FILE --sub ID --anchor ID [--heed yes]
       fed register --config FILE --anchor ID < POSTED
       fed rehearse --params N
       fed help COMMAND
       fed --help | --version

verify       checks one entity configuration under the public key PUB
keygen       makes a key and the new file of its ring, and writes its public key
issue        signs claims by the newest live key of a ring
rotate       adds a key to a ring, retires one, or revokes one
public       shows the public keys of a ring
check        checks a trust chain for the trust anchor ID, under its keys
check-reply  checks a resolver's reply, its chain, and what it says
show         shows what a signed text, a chain or a key set says, unverified
check-config says what is wrong with a node's configuration, or what the node is
authority    answers N connections over HTTP as a configuration's authority
resolver     answers N connections over HTTP as a configuration's resolver
resolve      resolves an entity up to a trust anchor, over HTTP
register     registers a relying party that posts its configuration or its chain
rehearse     resolves a leaf with N parameters in a federation in memory, twice
help         shows a command's arguments, input, output, statuses, an example

Options stand in any order. T is a moment in seconds since 1970, below 2^62. An
input or a file has at most 4,194,304 bytes; one LF or CR LF may end an input.

status  0  the work is done              1  refused
        2  the arguments (`words`), or the input or a file (`input`), are
           malformed                     3  reading the input failed
        4  writing the output failed     5  memory was wanting
        6  reading or keeping a file failed
        7  the network failed: the port is taken, nobody can be accepted, or
           what was asked for couldn't be fetched
        8  2^62 calls were counted       9  the search's budget ended
";

/// What `--version` writes.
pub const VERSION: &[u8] = b"fed 0.2.0\n";
