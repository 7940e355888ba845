// What is to be served.

/// On which port how many connections are to be served.
#[derive(Clone, Copy, Debug, PartialEq, Eq)]
pub struct Post {
    /// The port.
    pub port: u16,
    /// How many connections.
    pub connections: u64,
}
