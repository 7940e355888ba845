// The commands with their options.

use crate::verb::Verb;

/// What the value of an option is.
#[derive(Clone, Copy, Drop)]
pub enum Form {
    /// Any word.
    Word,
    /// A moment in seconds since 1970.
    Moment,
    /// How many connections are served.
    Connections,
    /// How many parameters a rehearsal has.
    Params,
    /// A port.
    Port,
    /// An entity identifier.
    Identifier,
    /// A type of text that is sealed.
    TextType,
    /// A change of a ring.
    Act,
    /// A reason of a revocation.
    Reason,
    /// A signature algorithm.
    Alg,
    /// By how many workers a text is signed.
    Workers,
    /// `yes`.
    Yes,
}

/// An option.
#[derive(Clone, Copy, PartialEq, Eq, Drop)]
pub enum OptionName {
    Act,
    Alg,
    Anchor,
    AnchorKeys,
    At,
    Claims,
    Config,
    Connections,
    Exp,
    Heed,
    Keys,
    Kid,
    Params,
    Port,
    Reason,
    Ring,
    Stream,
    Strict,
    Sub,
    Typ,
    Workers,
}

impl OptionName {
    /// The option's word.
    pub fn word(self) -> &'static [u8] {
        match self {
            OptionName::Act => b"--act",
            OptionName::Alg => b"--alg",
            OptionName::Anchor => b"--anchor",
            OptionName::AnchorKeys => b"--anchor-keys",
            OptionName::At => b"--at",
            OptionName::Claims => b"--claims",
            OptionName::Config => b"--config",
            OptionName::Connections => b"--connections",
            OptionName::Exp => b"--exp",
            OptionName::Heed => b"--heed",
            OptionName::Keys => b"--keys",
            OptionName::Kid => b"--kid",
            OptionName::Params => b"--params",
            OptionName::Port => b"--port",
            OptionName::Reason => b"--reason",
            OptionName::Ring => b"--ring",
            OptionName::Stream => b"--stream",
            OptionName::Strict => b"--strict",
            OptionName::Sub => b"--sub",
            OptionName::Typ => b"--typ",
            OptionName::Workers => b"--workers",
        }
    }

    /// What stands for its value in a usage.
    pub fn value(self) -> &'static [u8] {
        match self {
            OptionName::Act => b"ACT",
            OptionName::Alg => b"ALG",
            OptionName::Anchor | OptionName::Sub => b"ID",
            OptionName::At | OptionName::Exp => b"T",
            OptionName::AnchorKeys | OptionName::Config | OptionName::Keys | OptionName::Ring =>
                b"FILE",
            OptionName::Connections | OptionName::Params => b"N",
            OptionName::Kid => b"KID",
            OptionName::Port => b"P",
            OptionName::Reason => b"R",
            OptionName::Claims | OptionName::Heed | OptionName::Stream | OptionName::Strict =>
                b"yes",
            OptionName::Typ => b"TYP",
            OptionName::Workers => b"W",
        }
    }

    /// The form of its value.
    pub fn form(self) -> Form {
        match self {
            OptionName::Act => Form::Act,
            OptionName::Alg => Form::Alg,
            OptionName::Anchor | OptionName::Sub => Form::Identifier,
            OptionName::At | OptionName::Exp => Form::Moment,
            OptionName::AnchorKeys
            | OptionName::Config
            | OptionName::Keys
            | OptionName::Kid
            | OptionName::Ring => Form::Word,
            OptionName::Connections => Form::Connections,
            OptionName::Params => Form::Params,
            OptionName::Port => Form::Port,
            OptionName::Reason => Form::Reason,
            OptionName::Claims | OptionName::Heed | OptionName::Stream | OptionName::Strict => {
                Form::Yes
            }
            OptionName::Typ => Form::TextType,
            OptionName::Workers => Form::Workers,
        }
    }
}

/// How a command is called.
#[derive(Clone, Copy, Drop)]
pub struct Usage {
    pub verb: Verb,
    /// The value of `--act`, or nothing where the command has no such option.
    pub act: &'static str,
    /// The options that it needs.
    pub needed: &'static [OptionName],
    /// The options that it may have.
    pub free: &'static [OptionName],
    /// What stands for its standard input, or nothing where it reads none.
    pub input: &'static str,
}

/// All commands but `verify` and `help`, which take one word, and the flags, which stand alone.
pub const USAGES: [Usage; 15] = [
    Usage {
        verb: Verb::Keygen,
        act: "",
        needed: &[OptionName::Ring, OptionName::At, OptionName::Exp],
        free: &[OptionName::Alg],
        input: "SEEDS",
    },
    Usage {
        verb: Verb::Issue,
        act: "",
        needed: &[OptionName::Ring, OptionName::Typ],
        free: &[OptionName::Workers],
        input: "CLAIMS",
    },
    Usage {
        verb: Verb::Rotate,
        act: "add",
        needed: &[
            OptionName::Ring,
            OptionName::Act,
            OptionName::At,
            OptionName::Exp,
        ],
        free: &[OptionName::Alg],
        input: "SEEDS",
    },
    Usage {
        verb: Verb::Rotate,
        act: "retire",
        needed: &[OptionName::Ring, OptionName::Act, OptionName::Kid],
        free: &[],
        input: "",
    },
    Usage {
        verb: Verb::Rotate,
        act: "revoke",
        needed: &[
            OptionName::Ring,
            OptionName::Act,
            OptionName::Kid,
            OptionName::At,
            OptionName::Reason,
        ],
        free: &[],
        input: "",
    },
    Usage {
        verb: Verb::Public,
        act: "",
        needed: &[OptionName::Ring],
        free: &[OptionName::Kid],
        input: "",
    },
    Usage {
        verb: Verb::Check,
        act: "",
        needed: &[OptionName::Anchor, OptionName::Keys],
        free: &[OptionName::At],
        input: "CHAIN",
    },
    Usage {
        verb: Verb::CheckReply,
        act: "",
        needed: &[OptionName::Keys, OptionName::Anchor, OptionName::AnchorKeys],
        free: &[OptionName::At],
        input: "REPLY",
    },
    Usage {
        verb: Verb::Show,
        act: "",
        needed: &[],
        free: &[OptionName::Claims],
        input: "TEXT",
    },
    Usage {
        verb: Verb::CheckConfig,
        act: "",
        needed: &[OptionName::Config],
        free: &[OptionName::At, OptionName::Strict],
        input: "",
    },
    Usage {
        verb: Verb::Authority,
        act: "",
        needed: &[
            OptionName::Config,
            OptionName::Port,
            OptionName::Connections,
        ],
        free: &[OptionName::Stream],
        input: "",
    },
    Usage {
        verb: Verb::Resolver,
        act: "",
        needed: &[
            OptionName::Config,
            OptionName::Port,
            OptionName::Connections,
        ],
        free: &[],
        input: "",
    },
    Usage {
        verb: Verb::Resolve,
        act: "",
        needed: &[OptionName::Config, OptionName::Sub, OptionName::Anchor],
        free: &[OptionName::Heed],
        input: "",
    },
    Usage {
        verb: Verb::Register,
        act: "",
        needed: &[OptionName::Config, OptionName::Anchor],
        free: &[],
        input: "POSTED",
    },
    Usage {
        verb: Verb::Rehearse,
        act: "",
        needed: &[OptionName::Params],
        free: &[],
        input: "",
    },
];
