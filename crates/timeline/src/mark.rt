//! A mark of a picture.

/// A mark of a picture: its distance from the left in pixels, and its height above the base of its
/// row.
#[derive(Clone, Copy)]
pub struct Mark {
    pub x: u64,
    pub height: u64,
}
