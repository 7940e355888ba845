// Options as other programs have them.

use cli_help::{OptionName, Usage};

/// Whether the command has an option of that name.
pub(crate) fn has_option(usage: &Usage, name: OptionName) -> bool {
    usage.needed.iter().any(|known| *known == name) || usage.free.iter().any(|known| *known == name)
}

/// The option of the command that other programs call by this word.
pub(crate) fn option_called(usage: &Usage, word: &[u8]) -> Option<OptionName> {
    CALLED
        .iter()
        .find(|known| known.0.as_bytes() == word && has_option(usage, known.1))
        .map(|known| known.1)
}

/// What is to be done in place of an option that other programs have and `fed` hasn't, or nothing.
pub(crate) fn done_otherwise(word: &[u8]) -> &'static [u8] {
    match OTHERWISE.iter().find(|known| known.0.as_bytes() == word) {
        Some(known) => known.1.as_bytes(),
        None => b"",
    }
}

/// Whether other programs read by this option what `fed` reads from standard input.
pub(crate) fn names_input(word: &[u8]) -> bool {
    INPUTS.iter().any(|known| known.as_bytes() == word)
}

// What other programs call an option.
const CALLED: [(&str, OptionName); 58] = [
    ("--trust-anchor", OptionName::Anchor),
    ("--trust_anchor", OptionName::Anchor),
    ("--trustanchor", OptionName::Anchor),
    ("--ta", OptionName::Anchor),
    ("--root", OptionName::Anchor),
    ("--conf", OptionName::Config),
    ("--configuration", OptionName::Config),
    ("--config-file", OptionName::Config),
    ("--cfg", OptionName::Config),
    ("--subject", OptionName::Sub),
    ("--entity", OptionName::Sub),
    ("--entity-id", OptionName::Sub),
    ("--leaf", OptionName::Sub),
    ("--rp", OptionName::Sub),
    ("--key", OptionName::Ring),
    ("--key-file", OptionName::Ring),
    ("--keyfile", OptionName::Ring),
    ("--keyring", OptionName::Ring),
    ("--key-ring", OptionName::Ring),
    ("--private-key", OptionName::Ring),
    ("--signing-key", OptionName::Ring),
    ("--secret", OptionName::Ring),
    ("--jwks", OptionName::Keys),
    ("--jwk", OptionName::Keys),
    ("--jwks-file", OptionName::Keys),
    ("--key-set", OptionName::Keys),
    ("--keyset", OptionName::Keys),
    ("--public-key", OptionName::Keys),
    ("--anchor-keys", OptionName::Keys),
    ("--resolver-keys", OptionName::Keys),
    ("--type", OptionName::Typ),
    ("--token-type", OptionName::Typ),
    ("--expires", OptionName::Exp),
    ("--expiry", OptionName::Exp),
    ("--expiration", OptionName::Exp),
    ("--until", OptionName::Exp),
    ("--not-after", OptionName::Exp),
    ("--time", OptionName::At),
    ("--now", OptionName::At),
    ("--date", OptionName::At),
    ("--iat", OptionName::At),
    ("--from", OptionName::At),
    ("--not-before", OptionName::At),
    ("--algorithm", OptionName::Alg),
    ("--id", OptionName::Kid),
    ("--key-id", OptionName::Kid),
    ("--keyid", OptionName::Kid),
    ("--threads", OptionName::Workers),
    ("--jobs", OptionName::Workers),
    ("--count", OptionName::Connections),
    ("--requests", OptionName::Connections),
    ("--max-connections", OptionName::Connections),
    ("--keep-alive", OptionName::Stream),
    ("--keepalive", OptionName::Stream),
    ("--action", OptionName::Act),
    ("--json", OptionName::Claims),
    ("--format", OptionName::Claims),
    ("--payload", OptionName::Claims),
];

// What is done here in place of an option of other programs.
const OTHERWISE: [(&str, &str); 22] = [
    (
        "--listen",
        "the address stands in the environment, as FED_LISTEN=127.0.0.1",
    ),
    (
        "--bind",
        "the address stands in the environment, as FED_LISTEN=127.0.0.1",
    ),
    (
        "--host",
        "the address stands in the environment, as FED_LISTEN=127.0.0.1",
    ),
    (
        "--address",
        "the address stands in the environment, as FED_LISTEN=127.0.0.1",
    ),
    (
        "--quiet",
        "FED_QUIET=1 in the environment leaves standard error empty",
    ),
    (
        "--silent",
        "FED_QUIET=1 in the environment leaves standard error empty",
    ),
    (
        "-q",
        "FED_QUIET=1 in the environment leaves standard error empty",
    ),
    (
        "--log",
        "FED_LOG=off in the environment leaves away the lines of connections, which stand on standard error",
    ),
    (
        "--log-level",
        "FED_LOG=off in the environment leaves away the lines of connections, which stand on standard error",
    ),
    (
        "--no-log",
        "FED_LOG=off in the environment leaves away the lines of connections, which stand on standard error",
    ),
    ("--verbose", "standard error has all that there is to say"),
    ("--debug", "standard error has all that there is to say"),
    ("--out", "what is written goes to standard output: > FILE"),
    (
        "--output",
        "what is written goes to standard output: > FILE",
    ),
    ("-o", "what is written goes to standard output: > FILE"),
    (
        "--outfile",
        "what is written goes to standard output: > FILE",
    ),
    ("--force", "no file is written over; name another"),
    ("--overwrite", "no file is written over; name another"),
    ("--json", "what is written has one form alone"),
    ("--format", "what is written has one form alone"),
    (
        "--daemon",
        "it runs in the foreground; a service manager as systemd puts it behind",
    ),
    (
        "--tls",
        "it speaks plain HTTP; a server in front, as nginx, speaks TLS",
    ),
];

// By what other programs are told what `fed` reads from standard input.
const INPUTS: [&str; 14] = [
    "--in",
    "--input",
    "--file",
    "-i",
    "-f",
    "--chain",
    "--trust-chain",
    "--text",
    "--jwt",
    "--token",
    "--claims",
    "--payload",
    "--seeds",
    "--stdin",
];
