// The pages of the commands that make keys, change and show them, and seal by them.

/// The page of `keygen`.
pub(crate) const KEYGEN: &[u8] = b"fed keygen --ring FILE --at T --exp T [--alg ALG] < SEEDS

Makes a ring file of one key, and writes its public key.

options  --ring FILE  the ring file to make; no file may have this name
         --at T       from when the key is for, in seconds since 1970
         --exp T      until when
         --alg ALG    128s, the default, for SLH-DSA-SHA2-128s, or 128f for
                      SLH-DSA-SHA2-128f, whose signatures are made some 20 times
                      as fast, are twice as long and take 3 times as long to
                      check
input    96 hexadecimal digits: SK.seed, SK.prf and PK.seed (FIPS 205), from a
         good source of chance; who knows them can sign in the node's name
output   {\"alg\":..}     the public key, a JWK whose kid is its thumbprint
         refused Exists a file has that name; no input is read
         refused Order  --exp isn't later than --at
         input          the input isn't 96 hexadecimal digits
status   0 made, 1 refused, 2 words or input, 3 the input can't be read, 4 the
         output can't be written (the file stays), 5 memory was wanting, 6 the
         file can't be kept
example  head -c 48 /dev/urandom | od -An -v -tx1 | tr -d ' \\n' |
             fed keygen --ring node.ring --at 1800000000 --exp 1900000000
";

/// The page of `issue`.
pub(crate) const ISSUE: &[u8] = b"fed issue --ring FILE --typ TYP [--workers W] < CLAIMS

Signs claims by the newest live key of a ring file, which isn't changed.

options  --ring FILE  the ring file
         --typ TYP    entity-statement+jwt, trust-mark+jwt or
                      trust-mark-delegation+jwt; it says which claims there
                      must be
         --workers W  by how many workers the signature is made, 1 to 16; 1 is
                      the default, the text is the same by each number, and more
                      than there are processors gain nothing
input    the claims, a JSON object
output   a line          the text in JWS compact serialization
         refused Form    the claims aren't those of such a text, or a number of
                         them has a fraction, an exponent or too many digits
         refused TooLong they have more than 179,000 bytes as compact JSON
         input           the ring file isn't there or is malformed, or the
                         input is no JSON object
status   0 signed, 1 refused, 2 words or input, 3 the input can't be read, 4 the
         output can't be written, 5 memory was wanting, 6 the file can't be read
example  fed issue --ring rp.ring --typ entity-statement+jwt < claims.json
";

/// The page of `rotate`.
pub(crate) const ROTATE: &[u8] =
    b"fed rotate --ring FILE --act add --at T --exp T [--alg ALG] < SEEDS
fed rotate --ring FILE --act retire --kid KID
fed rotate --ring FILE --act revoke --kid KID --at T --reason R

Makes one change of the ring of a ring file: a new live key stands first and
signs from then on; a live key signs no more, and what it signed stays good; or
a key isn't to be trusted any more.

options  --ring FILE  the ring file
         --act ACT    what is changed: add, retire or revoke
         --at T       from when the new key is for, or since when the key is
                      revoked, in seconds since 1970
         --exp T      until when the new key is for
         --alg ALG    the algorithm of the new key, 128s, the default, or 128f,
                      as keygen takes it; a ring may have keys of both
         --kid KID    the name of the key, its thumbprint
         --reason R   unspecified, compromised or superseded
input    for add the seeds of the new key, as keygen takes them; else none
output   a line          of add the name of the new key
         done            of retire and revoke
         refused Order   the moments aren't in their order, the ring has 16
                         keys, the key isn't in a state for this, or no live
                         key would stay
         refused Known   the key is in the ring already
         refused Unknown no key of the ring has this name
         input           the ring file isn't there or is malformed, or the
                         input isn't 96 hexadecimal digits
status   0 changed, 1 refused, 2 words or input, 3 the input can't be read, 4
         the output can't be written (the change stands), 5 memory was wanting,
         6 the file can't be read or kept, or another program changes it
example  fed rotate --ring node.ring --act retire --kid KID
";

/// The page of `public`.
pub(crate) const PUBLIC: &[u8] = b"fed public --ring FILE [--kid KID]

Shows the public keys of a ring file, so that none is lost with the line that
keygen or rotate wrote.

options  --ring FILE  the ring file
         --kid KID    the name of one key, its thumbprint
input    none is read
output   {\"keys\":[..]}   without --kid: the live keys as a JWK Set, newest first
         {\"alg\":..}      with --kid: that key, a JWK; one that is retired or
                         revoked has its end (exp) and its revocation (revoked)
         refused Unknown no key of the ring has this name
         input           the ring file isn't there or is malformed
status   0 shown, 1 refused, 2 words or input, 4 the output can't be written, 5
         memory was wanting, 6 the file can't be read
example  fed public --ring ta.ring > ta.keys.json
";
