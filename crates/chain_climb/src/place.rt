// Where a search stands.

// What a search waits for.
#[derive(Clone, Copy, Drop)]
pub enum Stage {
    // The leaf's configuration.
    Leaf,
    // A page for a hint, or room for a path.
    Hint,
    // A verdict on the path at hand.
    Judge,
    // Nothing more: the path at hand is valid.
    Found,
    // Nothing more: no step is left.
    Ended,
}

// Where a search stands among its paths.
#[derive(Clone, Copy, Drop)]
pub struct Place {
    pub stage: Stage,
    // The path at hand, and the hint of its last entity.
    pub at: usize,
    pub hint: usize,
    // Where the paths of this length end.
    pub level_end: usize,
    // How many lengths follow.
    pub left: u64,
}
