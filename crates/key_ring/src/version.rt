// The versions of ring files.

ghost use Rattle.std.specs.Prelude.{◌≡◌};
ghost use Rattle.key_ring.specs.Files.{number_of};

/// A version of the form of ring files.
#[derive(Clone, Copy, Drop)]
pub enum Version {
    /// Version 1: no key names its algorithm, and each is of SLH-DSA-SHA2-128s.
    First,
    /// Version 2, which is written: each key names its algorithm.
    Second,
}

impl Version {
    /// The number that a file has.
    pub fn number(self) -> u64
        ensures { result ≡ number_of self }
    {
        match self {
            Version::First => 1,
            Version::Second => 2,
        }
    }
}
