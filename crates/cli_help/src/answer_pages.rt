// The pages of the commands that check and show what others wrote.

/// The page of `verify`.
pub(crate) const VERIFY: &[u8] = b"fed verify PUB < TEXT

Checks one entity configuration under a public key, by the algorithm that its
header names, SLH-DSA-SHA2-128s or SLH-DSA-SHA2-128f. The text's own keys, its
kid and its moments aren't looked at.

argument PUB          the public key, PK.seed and PK.root (FIPS 205): 43
                      base64url characters
input    the configuration, a text in JWS compact serialization of at most
         262,144 bytes
output   valid <sub>       it is the configuration of that entity
         refused Form      it is no entity statement
         refused Names     its iss isn't its sub
         refused Signature the signature doesn't verify under PUB
         input             the input has more than 4,194,304 bytes
status   0 valid, 1 refused, 2 words or input, 3 the input can't be read, 4 the
         output can't be written, 5 memory was wanting
example  fed verify \"$(cat examples/rp.pub)\" < examples/rp.jwt
";

/// The page of `check`.
pub(crate) const CHECK: &[u8] = b"fed check --anchor ID --keys FILE [--at T] < CHAIN

Checks a trust chain for a trust anchor, under the keys that it is known by.

options  --anchor ID  the anchor's identifier, a URL
         --keys FILE  a file with the anchor's keys, a JWK Set
         --at T       the moment for which it is checked, in seconds since 1970;
                      without it, now
input    a JSON list of at most 14 texts: the leaf's configuration, the
         statement about the leaf, and so on up to the anchor's configuration
output   valid <leaf> <exp> the chain is valid until exp; a second line has the
                            leaf's metadata under the merged policy
         refused <place> R  the first place, from the leaf's 0 on, that fails,
                            and why: R is Form, Names, Times, Signature,
                            PathLength, Name, Conflict .. or Policy ..
         input              the file or the input is malformed
status   0 valid, 1 refused, 2 words or input, 3 the input can't be read, 4 the
         output can't be written, 5 memory was wanting, 6 the file can't be read
example  fed check --anchor https://ta.example --keys examples/ta.keys.json \\
             --at 1800000000 < examples/rp.chain.json
";

/// The page of `check-reply`.
pub(crate) const CHECK_REPLY: &[u8] =
    b"fed check-reply --keys FILE --anchor ID --anchor-keys FILE [--at T] < REPLY

Checks a resolver's reply: its signature, its chain up to a trust anchor, and
that what it says is what the chain says.

options  --keys FILE         a file with the resolver's keys, a JWK Set
         --anchor ID         the anchor's identifier, a URL
         --anchor-keys FILE  a file with the anchor's keys, a JWK Set
         --at T              the moment for which it is checked, in seconds
                             since 1970; without it, now. The chain is checked
                             for the reply's iat
input    the reply, a text in JWS compact serialization
output   valid <sub> <exp>  the reply can be acted on until exp; a second line
                            has its metadata. A line `unchecked <place>` follows
                            for each trust mark, by its place from 0 on, whose
                            signature isn't checked: its issuer is neither the
                            entity nor the anchor, so that no key of it is known
         refused R          the first thing that is wrong: R is Form, Signature,
                            Chain <place> .., Subject, Metadata, End,
                            Mark <place> .. or Times
         input              a file or the input is malformed
status   0 valid, 1 refused, 2 words or input, 3 the input can't be read, 4 the
         output can't be written, 5 memory was wanting, 6 a file can't be read
example  fed check-reply --keys resolver.keys --anchor https://ta.example \\
             --anchor-keys ta.keys < reply.jwt
";

/// The page of `show`.
pub(crate) const SHOW: &[u8] = b"fed show [--claims yes] < TEXT

Shows what a signed text, a chain or a key set says: header and claims indented,
moments with their dates, keys by their thumbprints. Nothing is verified.

options  --claims yes  of a signed text its claims alone, for programs: the JSON
                       object that was signed, byte for byte, and a line end
input    a text in JWS compact serialization; a chain, a JSON list of such
         texts; or a JWK Set
output   the parts, and then what they are: an entity's configuration, a
         statement, a trust mark, a delegation, a status, a registration, a
         key set; or, by name, the first reason why they aren't
         refused R    the reason, as in docs/COMMANDS.md
         input        the input is JSON of another kind, or has more than
                      4,194,304 bytes; nothing else is written then
status   0 it is what it says, 1 refused, 2 words or input, 3 the input can't be
         read, 4 the output can't be written, 5 memory was wanting
example  fed show < examples/rp.jwt
";

/// The page of `help`.
pub(crate) const HELP_PAGE: &[u8] = b"fed help COMMAND

Shows how a command is called: its arguments, its input, what it writes, its
statuses, and an example.

argument COMMAND      verify, keygen, issue, rotate, public, check,
                      check-reply, show, check-config, authority, resolver,
                      resolve, register, rehearse or help
input    none is read
output   the page
status   0 shown, 2 there is no such command, 4 the output can't be written, 5
         memory was wanting
example  fed help check
";
