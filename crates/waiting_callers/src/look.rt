// What a look at a caller finds.

/// What is there of a caller's request.
#[derive(Clone, Copy, Debug, PartialEq, Eq, Drop)]
pub enum Look {
    /// Nothing came yet.
    Silent,
    /// Its request has begun.
    Speaks,
    /// Its request is there, or as much of it as is waited for, or no more of it will come.
    Whole,
    /// It can't be served any more.
    Gone,
}
