// How a configuration is checked.

/// For which moment a configuration is checked, in seconds since 1970, and whether what is warned of is refused.
#[derive(Clone, Copy, Drop)]
pub struct Checking {
    pub moment: u64,
    pub strict: bool,
}
