// The pages of the commands that work by a node's configuration.

/// The page of `check-config`.
pub(crate) const CHECK_CONFIG: &[u8] = b"fed check-config --config FILE [--at T] [--strict yes]

Reads a node's configuration, its ring and its trust marks, and says the first
fault, or what the node is. What looks wrong is warned of on standard error.

options  --config FILE the configuration, a JSON object; man 5 fed-config
         --at T        the moment for which it is told, in seconds since 1970;
                       without it, now
         --strict yes  the status is 1 where something is warned of
input    none is read
output   lines         the entity, its keys, each with its algorithm and its
                       end, its marks, its subordinates, its trust anchors, its
                       routes, what it serves where, and what ends within 30
                       days
         refused M R   the first member M at fault, and why: Shape, or of the
                       ring Absent, TooLong, Shape or Known, or of the trust
                       mark at a place the reason why it is none of the node's
         input         the configuration isn't there, is too long or isn't JSON
status   0 it is well formed, 1 refused, or warned of with --strict yes, 2 words
         or input, 4 the output can't be written, 5 memory was wanting, 6 a file
         can't be read
example  fed check-config --config node.json
";

/// The page of `authority`.
pub(crate) const AUTHORITY: &[u8] =
    b"fed authority --config FILE --port P --connections N [--stream yes]

Answers connections over HTTP as the authority of a configuration: its entity
configuration, statements about its subordinates, their list, its historical
keys, and the status of its trust marks.

options  --config FILE   the configuration; man 5 fed-config
         --port P        the port, 1 to 65535, of 127.0.0.1, or of the address
                         in the environment variable FED_LISTEN; with
                         FED_LISTEN=socket, of the socket on standard input
         --connections N how many connections are answered, 1 to 1000000, one
                         after the other
         --stream yes    a connection may ask up to 100 times, as nginx in front
                         does, and is shut where it asks nothing for a second;
                         without it each is answered once
input    none is read
output   served N        all were answered
         input           the configuration or its ring isn't there or is
                         malformed, or it has the member resolver
         Each answer leaves a line on standard error: an object of JSON with
         FED_LOG=json, and none with FED_LOG=off, no or 0.
status   0 served, 2 words or input, 4 the output can't be written, 5 memory was
         wanting, 6 a file can't be read, 7 the port can't be listened on, or
         nobody can be accepted
example  fed authority --config node.json --port 8300 --connections 1000000
";

/// The page of `resolver`.
pub(crate) const RESOLVER: &[u8] = b"fed resolver --config FILE --port P --connections N

Answers connections over HTTP as the resolver of a configuration: what authority
answers for such a node, the metadata of entities, and other keys for its trust
anchors.

options  --config FILE   the configuration, with the member resolver; man 5
                         fed-config
         --port P        the port, 1 to 65535, of 127.0.0.1, or of the address
                         in the environment variable FED_LISTEN; with
                         FED_LISTEN=socket, of the socket on standard input
         --connections N how many connections are answered, 1 to 1000000, as
                         many at once as the configuration has workers
input    none is read
output   served N        all were answered
         input           the configuration or its ring isn't there or is
                         malformed, or it lacks the member resolver
         Each answer leaves a line on standard error: an object of JSON with
         FED_LOG=json, and none with FED_LOG=off, no or 0.
status   0 served, 2 words or input, 4 the output can't be written, 5 memory was
         wanting, 6 a file can't be read, 7 the port can't be listened on, or
         nobody can be accepted, 8 2^62 calls were counted
example  fed resolver --config node.json --port 8301 --connections 1000000
";

/// The page of `resolve`.
pub(crate) const RESOLVE: &[u8] = b"fed resolve --config FILE --sub ID --anchor ID [--heed yes]

Resolves an entity up to a trust anchor, as the resolver of a configuration: it
asks the authorities over HTTP, for 30 seconds in all or FED_FETCH_SECONDS, and
writes a signed reply.

options  --config FILE the configuration, with the member resolver
         --sub ID      the entity, a URL
         --anchor ID   one of the configuration's trust anchors
         --heed yes    the issuers of the reply's trust marks that name a status
                       endpoint are asked whether the marks are active
input    none is read
output   a line        the reply in JWS compact serialization
         mark I WORD   with --heed yes, behind it for the mark at each place:
                       active, or unasked where its issuer names no status
                       endpoint; it is left out where its issuer says that it
                       isn't active (refused), gives no answer on it (useless),
                       or can't be asked (fault), and the status stays 0
         {\"error\":..}  why there is none: invalid_trust_anchor, not_found,
                       invalid_metadata or invalid_trust_chain
         input         the configuration or its ring isn't there or is
                       malformed, or it lacks the member resolver
status   0 resolved, 1 refused, 2 words or input, 4 the output can't be written,
         5 memory was wanting, 6 a file can't be read, 7 no valid chain was
         found and a fetch failed, 8 2^62 calls were counted, 9 no valid
         chain was found before a bound of the search
example  fed resolve --config node.json --sub https://rp.example \\
             --anchor https://ta.example
";

/// The page of `register`.
pub(crate) const REGISTER: &[u8] = b"fed register --config FILE --anchor ID < POSTED

Registers a relying party, as the node of a configuration: a posted chain is
checked, the chain of a posted configuration is first looked for over HTTP, for
30 seconds in all or FED_FETCH_SECONDS, and a signed registration is written.

options  --config FILE the configuration, with the member resolver
         --anchor ID   one of the configuration's trust anchors
input    what the relying party posts: its entity configuration, a text in JWS
         compact serialization, or its chain, a JSON list of such texts as
         check takes it
output   a line             the registration in JWS compact serialization
         refused R          why there is none: NoAnchor, the anchor isn't
                            listed; Form, neither was posted; NoChain, none was
                            found; NoType, the leaf's metadata has no
                            openid_relying_party
         refused <place> R  the first place of the chain that fails, and why, as
                            check says it
         input              the configuration or its ring isn't there or is
                            malformed, it lacks the member resolver, or the
                            input is too long
status   0 registered, 1 refused, 2 words or input, 3 the input can't be read, 4
         the output can't be written, 5 memory was wanting, 6 a file can't be
         read, 7 no chain was found and a fetch failed, 8 2^62 calls were
         counted, 9 no chain was found before a bound of the search
example  fed register --config resolver.json --anchor https://ta.example \\
             < rp.jwt
";

/// The page of `rehearse`.
pub(crate) const REHEARSE: &[u8] = b"fed rehearse --params N

Makes a federation in memory, resolves its leaf twice, and checks the chain of
the second reply: all that a resolver does, without a file or a network.

options  --params N    how many parameters the leaf's metadata has, 0 to 200
input    none is read
output   params N      as asked for
         chain C       how many statements the chain of the second reply has
         link calls A B
                       how many pages the first and the second call asked for
         checks A B    how many signatures each of them tested
         last V        the last parameter of the resolved metadata, or - if N
                       is 0
         valid         the chain was checked by itself, and is valid
status   0 done, 2 words, 4 the output can't be written, 5 memory was wanting,
         8 2^62 calls were counted
example  fed rehearse --params 3
";
