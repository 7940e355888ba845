// What is told of the jobs as they begin.

/// What the jobs of a signature pass as they begin, in whatever thread: a test's way to see that two are under way at once.
pub trait Gate {
    /// Called at the start of each job with its number: 0 is FORS, and j + 1 is layer j.
    fn enter(&self, job: u64);
}

/// The gate that lets each job through.
#[derive(Drop)]
pub struct OpenGate;

impl Gate for OpenGate {
    fn enter(&self, _job: u64) {}
}
