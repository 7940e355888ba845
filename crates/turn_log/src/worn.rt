// The end of an object's count.

/// The object has counted 2^62 calls, and takes no more.
#[derive(Clone, Copy, Debug, PartialEq, Eq, Drop)]
pub struct Worn {
    /// How many calls it has counted.
    pub count: u64,
}

// The number of calls at which an object is worn.
pub(crate) const CALL_LIMIT: u64 = 1 << 62;
