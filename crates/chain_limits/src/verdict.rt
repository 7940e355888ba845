/// Whether a chain stays within the limits that its superiors set. Places are counted from 0, the leaf's.
#[derive(Clone, Copy, Debug, PartialEq, Eq, Drop)]
pub enum LimitVerdict {
    /// Each limit is met.
    Met,
    /// This is the least place with a limit that isn't met: more entities than it allows stand between it and the leaf.
    PathLength(u64),
    /// This is the least place with a limit that isn't met: its path is short enough, but the host of its subject, or of
    /// one below, matches no permitted name or an excluded one.
    Name(u64),
}
