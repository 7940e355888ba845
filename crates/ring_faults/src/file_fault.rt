// What is wrong with a ring's file.

use crate::bytes::TextFault;
use crate::key_fault::KeyFault;

/// Why a file isn't that of a ring.
#[derive(Clone, Copy, PartialEq, Eq, Debug, Drop)]
pub enum FileFault {
    /// It isn't JSON.
    Text(TextFault),
    /// It has no list of keys.
    NoKeys,
    /// It has so many keys, none or more than 16.
    Count(u64),
    /// The key at this place, counted from 0, is the first that isn't of its form.
    Key(u64, KeyFault),
    /// It has no version, 1 or 2.
    NoVersion,
    /// None of its keys is live.
    NoLive,
    /// It has one key twice, or a member that isn't a ring's.
    Other,
    /// Memory was wanting.
    Memory,
}
