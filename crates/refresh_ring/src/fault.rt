//! What a schedule cannot do.

/// A switch request found 32 requests waiting.
#[derive(Clone, Copy, Debug, PartialEq, Eq)]
pub struct Full;

/// There was no memory for the jobs that wait.
#[derive(Clone, Copy, Debug, PartialEq, Eq)]
pub struct NoMemory;
