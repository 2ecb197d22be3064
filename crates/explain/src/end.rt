//! How an input ended.

/// How an input ended.
#[derive(Clone, Copy)]
pub(crate) enum End {
    /// All of it was read.
    Whole,
    /// A read failed.
    Unreadable,
}
